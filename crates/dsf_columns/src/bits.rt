// Bytes in our bit order, highest first.
ghost use Rattle.std.specs.Prelude.{◌≡◌};
ghost use Rattle.dsf.specs.inner.Orders.{ordered};
ghost use Rattle.dsf_columns.specs.inner.Columns.{Ordering};

use dsf::BitOrder;

// A byte of a file in our bit order.
#[tactic(auto, using(crate::proofs::Turned::reversed))]
fn ours(order: BitOrder, x: u8) -> u8
    ensures { result ≡ ordered order x }
{
    match order {
        BitOrder::LowestFirst => x.reverse_bits(),
        BitOrder::HighestFirst => x,
    }
}

// All bytes in our bit order.
pub fn order_table(order: BitOrder) -> [u8; 256]
    ensures { Ordering order result }
{
    // By an index, which is the byte.
    let mut table = [0u8; 256];
    for x in 0..256 {
        table[x] = ours(order, x as u8);
    }
    table
}
