// The fields of a record, as methods.
// Kept: a field has a method of its own, since each is a name, a place in the record and a type, and each is one call.
ghost use Rattle.std.specs.Prelude.{◌≡◌, ◌<◌};
ghost use Rattle.records.specs.Fields.{kind_of, flags_of, count_of, id_of, first_of, second_of, bits_of, float_of, flag_bit, voltage_bound_of, gs_of, bs_of, pd_of, qd_of, vm_min_of, vm_max_of, limited_of, angle_bound_of, from_of, to_of, g_of, b_of, g_fr_of, b_fr_of, g_to_of, b_to_of, tap_of, cos_shift_of, sin_shift_of, angmin_of, angmax_of, tan_angmin_of, tan_angmax_of, rate_a_of, capability_of, piecewise_of, segments_of, gen_bus_of, pmin_of, pmax_of, qmin_of, qmax_of, cq_of, cl_of, cc_of, slope_of, intercept_of};

use crate::Record;
use crate::inner::{byte_at, float_at, read16, read32, read64};

impl<'a> Record<'a> {
    // Every kind.
    // Kept: `kind` answers the byte as it is, which may be of no kind; a Kind would need an Option around it, and another test.
    #[tactic(auto, unfolding(crate::specs::Fields::kind_of))]
    pub fn kind(self) -> u16
        ensures { result ≡ kind_of self.entry.bytes.now self.entry.r }
    {
        byte_at(self.bytes, 128 * self.r)
    }

    #[tactic(auto, unfolding(crate::specs::Fields::flags_of))]
    pub fn flags(self) -> u16
        ensures { result ≡ flags_of self.entry.bytes.now self.entry.r }
    {
        byte_at(self.bytes, 128 * self.r + 1)
    }

    #[tactic(auto, unfolding(crate::specs::Fields::count_of))]
    pub fn count(self) -> usize
        ensures value { result ≡ count_of self.entry.bytes.now self.entry.r }
        ensures upper_bound { result < 65536 }
    {
        read16(self.bytes, 128 * self.r + 2) as usize
    }

    #[tactic(auto, unfolding(crate::specs::Fields::id_of))]
    pub fn id(self) -> u32
        ensures { result ≡ id_of self.entry.bytes.now self.entry.r }
    {
        read32(self.bytes, 128 * self.r + 4)
    }

    #[tactic(auto, unfolding(crate::specs::Fields::first_of))]
    pub fn first(self) -> u32
        ensures { result ≡ first_of self.entry.bytes.now self.entry.r }
    {
        read32(self.bytes, 128 * self.r + 8)
    }

    #[tactic(auto, unfolding(crate::specs::Fields::second_of))]
    pub fn second(self) -> u32
        ensures { result ≡ second_of self.entry.bytes.now self.entry.r }
    {
        read32(self.bytes, 128 * self.r + 12)
    }

    // The bits of float j, and the float.
    #[tactic(auto, unfolding(crate::specs::Fields::bits_of))]
    pub fn bits(self, j: usize) -> u64
        requires { j < 14 }
        ensures { result ≡ bits_of self.entry.bytes.now self.entry.r j }
    {
        read64(self.bytes, 128 * self.r + 16 + 8 * j)
    }

    #[tactic(auto, unfolding(crate::specs::Fields::float_of, crate::specs::Fields::bits_of))]
    pub fn float(self, j: usize) -> f64
        requires { j < 14 }
        ensures { result ≡ float_of self.entry.bytes.now self.entry.r j }
    {
        float_at(self.bytes, 128 * self.r + 16 + 8 * j)
    }

    // Flag bit j.
    #[tactic(auto, unfolding(crate::specs::Fields::flag_bit))]
    pub fn flag(self, j: u16) -> bool
        requires { j < 8 }
        ensures { result ≡ flag_bit self.entry.bytes.now self.entry.r j }
    {
        (self.flags() >> j) % 2 == 1
    }

    // A bus.
    pub fn voltage_bound_active(self) -> bool
        ensures { result ≡ voltage_bound_of self.entry.bytes.now self.entry.r }
    {
        self.flag(0)
    }

    pub fn gs(self) -> f64
        ensures { result ≡ gs_of self.entry.bytes.now self.entry.r }
    {
        self.float(0)
    }

    pub fn bs(self) -> f64
        ensures { result ≡ bs_of self.entry.bytes.now self.entry.r }
    {
        self.float(1)
    }

    pub fn pd(self) -> f64
        ensures { result ≡ pd_of self.entry.bytes.now self.entry.r }
    {
        self.float(2)
    }

    pub fn qd(self) -> f64
        ensures { result ≡ qd_of self.entry.bytes.now self.entry.r }
    {
        self.float(3)
    }

    pub fn vm_min(self) -> f64
        ensures { result ≡ vm_min_of self.entry.bytes.now self.entry.r }
    {
        self.float(4)
    }

    pub fn vm_max(self) -> f64
        ensures { result ≡ vm_max_of self.entry.bytes.now self.entry.r }
    {
        self.float(5)
    }

    // A branch.
    #[tactic(auto, unfolding(crate::specs::Fields::limited_of))]
    pub fn thermal_limit_active(self) -> bool
        ensures { result ≡ limited_of self.entry.bytes.now self.entry.r }
    {
        self.flag(0)
    }

    pub fn angle_bound_active(self) -> bool
        ensures { result ≡ angle_bound_of self.entry.bytes.now self.entry.r }
    {
        self.flag(1)
    }

    pub fn br_from(self) -> u32
        ensures { result ≡ from_of self.entry.bytes.now self.entry.r }
    {
        self.first()
    }

    pub fn br_to(self) -> u32
        ensures { result ≡ to_of self.entry.bytes.now self.entry.r }
    {
        self.second()
    }

    #[tactic(auto, unfolding(crate::specs::Fields::g_of))]
    pub fn g(self) -> f64
        ensures { result ≡ g_of self.entry.bytes.now self.entry.r }
    {
        self.float(0)
    }

    #[tactic(auto, unfolding(crate::specs::Fields::b_of))]
    pub fn b(self) -> f64
        ensures { result ≡ b_of self.entry.bytes.now self.entry.r }
    {
        self.float(1)
    }

    #[tactic(auto, unfolding(crate::specs::Fields::g_fr_of))]
    pub fn g_fr(self) -> f64
        ensures { result ≡ g_fr_of self.entry.bytes.now self.entry.r }
    {
        self.float(2)
    }

    #[tactic(auto, unfolding(crate::specs::Fields::b_fr_of))]
    pub fn b_fr(self) -> f64
        ensures { result ≡ b_fr_of self.entry.bytes.now self.entry.r }
    {
        self.float(3)
    }

    #[tactic(auto, unfolding(crate::specs::Fields::g_to_of))]
    pub fn g_to(self) -> f64
        ensures { result ≡ g_to_of self.entry.bytes.now self.entry.r }
    {
        self.float(4)
    }

    #[tactic(auto, unfolding(crate::specs::Fields::b_to_of))]
    pub fn b_to(self) -> f64
        ensures { result ≡ b_to_of self.entry.bytes.now self.entry.r }
    {
        self.float(5)
    }

    #[tactic(auto, unfolding(crate::specs::Fields::tap_of))]
    pub fn tap(self) -> f64
        ensures { result ≡ tap_of self.entry.bytes.now self.entry.r }
    {
        self.float(6)
    }

    pub fn cos_shift(self) -> f64
        ensures { result ≡ cos_shift_of self.entry.bytes.now self.entry.r }
    {
        self.float(7)
    }

    pub fn sin_shift(self) -> f64
        ensures { result ≡ sin_shift_of self.entry.bytes.now self.entry.r }
    {
        self.float(8)
    }

    pub fn angmin(self) -> f64
        ensures { result ≡ angmin_of self.entry.bytes.now self.entry.r }
    {
        self.float(9)
    }

    pub fn angmax(self) -> f64
        ensures { result ≡ angmax_of self.entry.bytes.now self.entry.r }
    {
        self.float(10)
    }

    pub fn tan_angmin(self) -> f64
        ensures { result ≡ tan_angmin_of self.entry.bytes.now self.entry.r }
    {
        self.float(11)
    }

    pub fn tan_angmax(self) -> f64
        ensures { result ≡ tan_angmax_of self.entry.bytes.now self.entry.r }
    {
        self.float(12)
    }

    pub fn rate_a(self) -> f64
        ensures { result ≡ rate_a_of self.entry.bytes.now self.entry.r }
    {
        self.float(13)
    }

    // A generator.
    pub fn generator_capability_active(self) -> bool
        ensures { result ≡ capability_of self.entry.bytes.now self.entry.r }
    {
        self.flag(0)
    }

    #[tactic(auto, unfolding(crate::specs::Fields::piecewise_of))]
    pub fn piecewise(self) -> bool
        ensures { result ≡ piecewise_of self.entry.bytes.now self.entry.r }
    {
        self.flag(1)
    }

    pub fn gen_bus(self) -> u32
        ensures { result ≡ gen_bus_of self.entry.bytes.now self.entry.r }
    {
        self.first()
    }

    pub fn pmin(self) -> f64
        ensures { result ≡ pmin_of self.entry.bytes.now self.entry.r }
    {
        self.float(0)
    }

    pub fn pmax(self) -> f64
        ensures { result ≡ pmax_of self.entry.bytes.now self.entry.r }
    {
        self.float(1)
    }

    pub fn qmin(self) -> f64
        ensures { result ≡ qmin_of self.entry.bytes.now self.entry.r }
    {
        self.float(2)
    }

    pub fn qmax(self) -> f64
        ensures { result ≡ qmax_of self.entry.bytes.now self.entry.r }
    {
        self.float(3)
    }

    pub fn cq(self) -> f64
        ensures { result ≡ cq_of self.entry.bytes.now self.entry.r }
    {
        self.float(4)
    }

    pub fn cl(self) -> f64
        ensures { result ≡ cl_of self.entry.bytes.now self.entry.r }
    {
        self.float(5)
    }

    pub fn cc(self) -> f64
        ensures { result ≡ cc_of self.entry.bytes.now self.entry.r }
    {
        self.float(6)
    }

    // A segment.
    pub fn slope(self) -> f64
        ensures { result ≡ slope_of self.entry.bytes.now self.entry.r }
    {
        self.float(0)
    }

    pub fn intercept(self) -> f64
        ensures { result ≡ intercept_of self.entry.bytes.now self.entry.r }
    {
        self.float(1)
    }

    // The segments of a generator's cost.
    #[tactic(auto, unfolding(crate::specs::Fields::segments_of))]
    pub fn segments(self) -> usize
        ensures value { result ≡ segments_of self.entry.bytes.now self.entry.r }
        ensures upper_bound { result < 65536 }
    {
        if self.piecewise() {
            return self.count();
        }
        0
    }
}
