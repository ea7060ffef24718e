//! Vouches for a Quiet: tells whether the book's first steps lead to the Quiet's design.
ghost use Rattle.std.specs.Prelude.{◌≡◌, ◌≤◌, ◌↔◌, IfErr, IfOk, IsTrue, length, take};
ghost use Rattle.poly_book.specs.Vouched.{AllLead, IsLedTo, led_to};

use crate::book::Book;
use crate::quiet::Quiet;
use crate::step::Step;
use poly_design::Design;
use poly_grid::Refusal;

impl Book {
    /// Whether the first steps lead from the opening design to the design of the Quiet. The Quiet's edition says how
    /// many steps these are; false if there are fewer. Fails only when out of memory.
    pub fn vouch(&self, quiet: &Quiet) -> Result<bool, Refusal>
        ensures ok { IfOk result (λ yes. IsTrue yes ↔ IsLedTo self.now quiet.now.edition quiet.now.design) }
        ensures why { IfErr result (λ e. e ≡ Refusal.Memory) }
    {
        leads_to(
            &self.parts.opened,
            &self.parts.steps,
            quiet.edition(),
            quiet.design(),
        )
    }
}

// Whether there are at least `count` steps, and the first `count` lead from `first` to `to`.
fn leads_to(first: &Design, steps: &[Step], count: u64, to: &Design) -> Result<bool, Refusal>
    requires { AllLead first.now steps.now }
    ensures ok { IfOk result (λ yes. IsTrue yes ↔ ((count ≤ length steps.now) × (led_to first.now (take count steps.now) ≡ to.now))) }
    ensures why { IfErr result (λ e. e ≡ Refusal.Memory) }
{
    if count > steps.len() as u64 {
        return Ok(false);
    }
    let design = made_by(first, &steps[..count as usize])?;
    Ok(design.is_same(to))
}

// The design that the steps lead to from `first`.
fn made_by(first: &Design, steps: &[Step]) -> Result<Design, Refusal>
    requires { AllLead first.now steps.now }
    ensures ok { IfOk result (λ d. d ≡ led_to first.now steps.now) }
    ensures why { IfErr result (λ e. e ≡ Refusal.Memory) }
{
    let mut design = first.copy()?;
    for step in steps {
        design.make(&step.change)?;
    }
    Ok(design)
}
