// A cone in the KKT matrix.
ghost use Rattle.complementarity.specs.Writes.{Held};

use lines::Cone;

// The first d rows of a cone, each standing in the KKT matrix nvar rows further down.
#[derive(Clone, Copy)]
pub struct Placed {
    pub nvar: u32,
    pub cone: Cone,
    pub d: usize,
    ghost held: { Held nvar cone },
}
