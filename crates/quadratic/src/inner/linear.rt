// q: a list of floats.
ghost use Rattle.std.specs.Prelude.{◌≡◌, ◌≤◌, length};
ghost use Rattle.lists.specs.UpTo.{listed, overlay};
ghost use Rattle.numbering.specs.Layout.{layout_column, nvar_of};
ghost use Rattle.numbering.specs.Network.{grid};
ghost use Rattle.numbering.specs.declared.ColumnName.TheVariants.{Pg};
ghost use Rattle.rows.specs.Program.{linear};
ghost use Rattle.cells.specs.Filled.{Filled};
ghost use Rattle.quadratic.specs.Linear.{linear_cost};

use cells::inner::fill_all;
use numbering::Network;

// 0 with the linear cost added, at each pg.
fn fill_costs(out: &mut [f64], net: &Network<'_>)
    requires { nvar_of net.now.layout ≤ length out.old }
    ensures { Filled (listed net.now.layout.k (linear_cost net.now.layout net.now.bytes.now)) out.old (layout_column net.now.layout (Pg 0)) out.new }
{
    let pg = net.layout.pg_column(0) as usize;
    // Kept: by index: g names the generator and the place; an iterator would be one over a part of the list, with its own count.
    for g in 0..net.layout.k {
        out[pg + g] = 0.0 + net.generator(g).cl();
    }
}

// All of q: zeros, then the cost of each pg, and 1 at each cost column.
pub fn fill_q(out: &mut [f64], net: &Network<'_>)
    requires { nvar_of net.now.layout ≤ length out.old }
    ensures { out.new ≡ overlay (linear (grid net.now)) out.old }
{
    let all = net.layout.column_count() as usize;
    let cost = net.layout.cost_column(0) as usize;
    fill_all(out, 0, all, 0.0);
    fill_costs(out, net);
    fill_all(out, cost, net.layout.cost_columns, 0.0 + 1.0);
}
