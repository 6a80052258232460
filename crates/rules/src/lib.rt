// The definitions stand in specs/ and the theorems about them in proofs/; a crate has to have a function.
#![tactic(auto)]

ghost use Rattle.std.specs.Prelude.{◌≡◌};

pub fn one() -> usize
    ensures { result ≡ 1 }
{
    1
}
