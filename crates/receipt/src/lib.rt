// What a call shows of itself.
#![tactic(auto)]

ghost use Rattle.std.specs.Prelude.{◌≡◌};
ghost use Rattle.receipt.specs.Kind.{kind_at};
ghost use Rattle.receipt.specs.Receipt.{refusal, refused_books, amounts};

use accounting::Books;
use charge::Charged;

// The kinds of calls, numbered as the rows of the day sheet are.
#[derive(Clone, Copy, Debug, PartialEq, Eq)]
pub enum Kind {
    Opening = 1,
    SwapBaseInput = 2,
    SwapBaseOutput = 3,
    Deposit = 4,
    Withdraw = 5,
    SettleCreatorFee = 6,
    SetStatus = 7,
}

// A number that no kind of call has.
#[derive(Clone, Copy, Debug, PartialEq, Eq)]
pub struct UnknownKind(pub u64);

impl TryFrom<u64> for Kind {
    type Error = UnknownKind;

    ghost try_from_gives = { λ number kind. kind ≡ kind_at number };

    #[tactic(auto, unfolding(crate::specs::Kind::kind_at))]
    fn try_from(number: u64) -> Result<Kind, UnknownKind> {
        match number {
            1 => Ok(Kind::Opening),
            2 => Ok(Kind::SwapBaseInput),
            3 => Ok(Kind::SwapBaseOutput),
            4 => Ok(Kind::Deposit),
            5 => Ok(Kind::Withdraw),
            6 => Ok(Kind::SettleCreatorFee),
            7 => Ok(Kind::SetStatus),
            _ => Err(UnknownKind(number)),
        }
    }
}

// An accepted call's number is 0. A refused call's receipt holds its number and zeros. Each part is zeros where it has no meaning. Number and kind are
// plain numbers: they are words over plain memory, which the C interface shows, and may be any there.
#[derive(Clone, Copy, Default)]
pub struct Receipt {
    pub number: u64,
    pub kind: u64,
    pub paid: Paid,
    pub trade: Trade,
    pub shared: Shared,
    pub charged: Charged,
}

// What reached the vaults and what left them, and the LP tokens that were issued or burnt.
#[derive(Clone, Copy, Default)]
pub struct Paid {
    pub in0: u64,
    pub in1: u64,
    pub out0: u64,
    pub out1: u64,
    pub lp: u64,
}

// What only a swap has.
#[derive(Clone, Copy, Default)]
pub struct Trade {
    pub direction: u64,
    pub clock: u64,
    pub trade_fee: u64,
    pub protocol_fee: u64,
    pub fund_fee: u64,
    pub creator_fee: u64,
    pub creator_fee_token: u64,
}

// The shared parts of a settlement.
#[derive(Clone, Copy, Default)]
pub struct Shared {
    pub shared0: u64,
    pub shared1: u64,
}

// What a call comes to that changes the books alone: the books after it, and its receipt, also of a refused call (document 01; `After` of pool).
#[derive(Clone, Copy)]
pub struct BooksAfter {
    pub books: Books,
    pub receipt: Receipt,
}

// A refused call's receipt: its number and zeros. Here and below a number or a kind may be any, as it may in memory.
#[tactic(auto, unfolding(crate::specs::Receipt::refusal))]
pub fn refusal_receipt(number: u64) -> Receipt
    ensures { result ≡ refusal number }
{
    Receipt {
        number,
        ..Receipt::default()
    }
}

// A refused call leaves the books as they were.
#[tactic(auto, unfolding(crate::specs::Receipt::refused_books))]
pub fn refuse_books(books: Books, number: u64) -> BooksAfter
    ensures { result ≡ refused_books books number }
{
    BooksAfter {
        books,
        receipt: refusal_receipt(number),
    }
}

// The receipt of an accepted call without fees.
#[tactic(auto, unfolding(crate::specs::Receipt::amounts))]
pub fn amounts_receipt(
    kind: u64,
    in0: u64,
    in1: u64,
    out0: u64,
    out1: u64,
    lp: u64,
    charged: Charged,
) -> Receipt
    ensures { result ≡ amounts kind in0 in1 out0 out1 lp charged }
{
    Receipt {
        kind,
        paid: Paid {
            in0,
            in1,
            out0,
            out1,
            lp,
        },
        charged,
        ..Receipt::default()
    }
}
