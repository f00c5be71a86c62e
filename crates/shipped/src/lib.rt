// Demand 3 and document 02 (e), (g) and (h) of what people run, each claim carried by a contract.
#![tactic(auto)]

ghost use Rattle.shipped.specs.Day.{OpeningsSeen, DayTheorem, PrintedTheorem};
ghost use Rattle.shipped.specs.DayMemory.{DayMemoryTheorem};
ghost use Rattle.shipped.specs.Library.{LibraryTheorem};
ghost use Rattle.shipped.specs.Mixed.{RowPoints, MixedTheorem};
ghost use Rattle.shipped.specs.Register.{RegisterInMemory};
ghost use Rattle.shipped.specs.Slicing.{SlicingInMemory};
ghost use Rattle.std.specs.Prelude.{true, ◌≡◌};

// Of every list of the library's calls on a memory, after an opening there that is accepted (specs/Library.antt).
pub fn library_theorem() -> bool
    ensures { (result ≡ true) × LibraryTheorem }
{
    true
}

// Of every day sheet, whatever its bytes, and of the numbers in the rows that are written, however the input is cut (specs/Day.antt), by
// the library's calls too (specs/DayMemory.antt).
pub fn day_theorem() -> bool
    ensures { (result ≡ true) × OpeningsSeen × DayTheorem × PrintedTheorem × DayMemoryTheorem }
{
    true
}

// Of one memory on which calls and openings, with a register and without, and day sheets are mixed in any order (specs/Mixed.antt).
pub fn mixed_theorem() -> bool
    ensures { (result ≡ true) × RowPoints × MixedTheorem }
{
    true
}

// Of every list of the library's calls that keep one register, after an opening with it that is accepted (specs/Register.antt).
pub fn register_theorem() -> bool
    ensures { (result ≡ true) × RegisterInMemory }
{
    true
}

// Of the library's swaps by input, an amount at once and in slices, on any memory (specs/Slicing.antt).
pub fn slicing_in_memory() -> bool
    ensures { (result ≡ true) × SlicingInMemory }
{
    true
}
