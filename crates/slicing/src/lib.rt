// Document 02 (h): a swap by input that is cut into slices gives no more than the whole at once. Carried by a contract, as demand 3 is by crate
// `history`.
#![tactic(auto)]

ghost use Rattle.slicing.specs.Slicing.{GainsNothingWithCharges, SlicingGainsNothing};
ghost use Rattle.slicing.specs.Worked.{WorkedSlices};
ghost use Rattle.std.specs.Prelude.{true, ◌≡◌};

// Its contract is document 02 (h), of every pool and ring, direction, list of amounts and clocks; and, which is more than was asked, the same with
// any charges (specs/Slicing.antt).
pub fn slicing_gains_nothing() -> bool
    ensures { (result ≡ true) × SlicingGainsNothing × GainsNothingWithCharges }
{
    true
}

// Every one of the table's 7 rows, an amount at once and in slices, comes out as the table has it (specs/Worked.antt).
pub fn worked_slices() -> bool
    ensures { (result ≡ true) × WorkedSlices }
{
    true
}
