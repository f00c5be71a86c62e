// Document 01's examples, each carried by a contract: its edges with the worked day, and its day sheet. Then what document 02 (a), (b), (c), (e)
// and (f) mean for every call.
#![tactic(auto)]

ghost use Rattle.edges.specs.Closed.{ClosedBeforeNothing};
ghost use Rattle.edges.specs.Edges.{edges, EdgesHold};
ghost use Rattle.edges.specs.Example.{Example};
ghost use Rattle.edges.specs.FreeDays.{FreeDays, NoSwapAnswers4};
ghost use Rattle.edges.specs.Hundred.{HundredStays};
ghost use Rattle.edges.specs.NoCharge.{NoChargeNoChange};
ghost use Rattle.edges.specs.WithinLength.{WithinLength};
ghost use Rattle.std.specs.Prelude.{true, ◌≡◌, length};

// Every one of the table's 97 rows comes out as document 01 has it, with document 02 (a), (b), (c), (e), (f) and (g) (specs/Edges.antt).
pub fn edges_hold() -> bool
    ensures { (result ≡ true) × (length edges ≡ 97) × EdgesHold }
{
    true
}

// The rows of document 01's day sheet come out as it prints them, byte for byte (specs/Example.antt).
pub fn example_holds() -> bool
    ensures { (result ≡ true) × Example }
{
    true
}

// At a rate sum of 0 nothing is charged, and a swap moves what the curve gives or asks; no swap answers 4 (specs/FreeDays.antt).
pub fn free_days_hold() -> bool
    ensures { (result ≡ true) × FreeDays × NoSwapAnswers4 }
{
    true
}

// A swap, deposit or withdrawal to which the pool is closed answers 1, whatever it asks; a swap's rate limits precede, and the amount comes
// after (specs/Closed.antt).
pub fn closed_before_nothing() -> bool
    ensures { (result ≡ true) × ClosedBeforeNothing }
{
    true
}

// Where both points are 0 each call gives what it gives without charges, whatever the maximums (specs/NoCharge.antt).
pub fn no_charge_no_change() -> bool
    ensures { (result ≡ true) × NoChargeNoChange }
{
    true
}

// A withdrawal from any pool, opened or built by hand, leaves at least 100 LP tokens where it is accepted (specs/Hundred.antt).
pub fn hundred_stays() -> bool
    ensures { (result ≡ true) × HundredStays }
{
    true
}

// Entries at or past the ring's length are neither read nor written, by any call on any pool; where the ring has no entry at its index no swap is
// accepted (specs/WithinLength.antt).
pub fn within_length() -> bool
    ensures { (result ≡ true) × WithinLength }
{
    true
}
