// A day sheet comes out the same however its input is cut, carried by a contract.
#![tactic(auto)]

ghost use Rattle.however_cut.specs.HoweverCut.{HoweverCut, AllTaken, GoesOn, PiecesAreTheWhole};
ghost use Rattle.std.specs.Prelude.{true, ◌≡◌};

// The rows written for an input in pieces are those of the whole of it, and room for one row suffices to go on (specs/HoweverCut.antt).
pub fn however_cut() -> bool
    ensures { (result ≡ true) × HoweverCut × AllTaken × GoesOn × PiecesAreTheWhole }
{
    true
}
