// Tests of the numbers below a limit, decided by going through them once.
#![tactic(auto)]

ghost use Rattle.std.specs.Prelude.{◌≡◌, ℕ, ◌<◌, Bool, IfSome};
ghost use Rattle.finite.specs.Finite.{every as every_of, exists as exists_of, lowest as lowest_of};
ghost use Rattle.finite.specs.Tests.{Takes, Tells};

// Whether the test holds of every number below the limit.
pub fn every<F: Fn(usize) -> bool>(limit: usize, test: F) -> bool
    requires { Takes limit (F.pre test) }
    ensures { (p : ℕ → Bool) → Tells limit (F.post test) p → result ≡ every_of limit p }
{
    (0..limit).all(test)
}

// Whether the test holds of some number below the limit.
pub fn exists<F: Fn(usize) -> bool>(limit: usize, test: F) -> bool
    requires { Takes limit (F.pre test) }
    ensures { (p : ℕ → Bool) → Tells limit (F.post test) p → result ≡ exists_of limit p }
{
    (0..limit).any(test)
}

// The lowest number below the limit of which the test holds.
pub fn lowest<F: Fn(usize) -> bool>(limit: usize, test: F) -> Option<usize>
    requires { Takes limit (F.pre test) }
    ensures value { (p : ℕ → Bool) → Tells limit (F.post test) p → result ≡ lowest_of limit p }
    ensures within { IfSome result (λ k. k < limit) }
{
    (0..limit).position(test)
}
