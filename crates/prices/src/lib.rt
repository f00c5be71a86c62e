// Reading the prices that the ring would count now.
#![tactic(auto)]

ghost use Rattle.std.specs.Prelude.{◌≡◌};
ghost use Rattle.prices.specs.Prices.{prices_of, prices_answer};

use accounting::Nets;
use oracle::token_price_x32;
use pool::state::Pool;
use refusal::{Refusal, refuse_if};
use wide::U128;

// Price 0 and price 1, with 32 bits after the point.
#[derive(Clone, Copy)]
pub struct Prices {
    pub price0: U128,
    pub price1: U128,
}

// A net of 0, 11: there is no price.
#[tactic(auto, unfolding(crate::specs::Prices::prices_of, refusal::specs::Tests::outcome))]
fn prices_at(nets: Nets) -> Result<Prices, Refusal>
    ensures { result ≡ prices_of nets.net0 nets.net1 }
{
    let Nets { net0, net1 } = nets;
    refuse_if(&[(net0 == 0, Refusal::PANIC), (net1 == 0, Refusal::PANIC)])?;
    Ok(Prices {
        price0: token_price_x32(net0, net1),
        price1: token_price_x32(net1, net0),
    })
}

// Counters' sums 8, vaults 7; a net of 0, 11; else the prices.
#[tactic(auto, using(crate::proofs::NetPrices::no_nets, crate::proofs::NetPrices::from_nets))]
pub fn token_prices_x32(pool: Pool) -> Result<Prices, Refusal>
    ensures { result ≡ prices_answer pool }
{
    let nets = pool.nets()?;
    prices_at(nets)
}
