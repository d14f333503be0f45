//! What a block identifier says of itself ([MS-PST] 2.2.2.2).

ghost use Rattle.std.specs.Prelude.{◌≡◌};
ghost use Rattle.pst_datatree.specs.Bid.{is_internal as internal, is_no_block as no_block};

/// Whether an identifier names no block: but for its bit 0, which says nothing, it is 0.
#[tactic(auto, unfolding(crate::specs::Bid::is_no_block))]
pub fn is_no_block(bid: u64) -> bool
    ensures { result ≡ no_block bid }
{
    bid < 2
}

/// Whether an identifier is an internal block's: its bit 1 is set.
#[tactic(auto, unfolding(crate::specs::Bid::is_internal))]
pub fn is_internal(bid: u64) -> bool
    ensures { result ≡ internal bid }
{
    bid / 2 % 2 == 1
}
