//! Test images: small stores ([MS-PST]) made from a plan of their blocks and nodes, and seals that make the check
//! values of changed bytes right again.
//!
//! It is the one place where the layout of a store can be read as code, from the top: `build` (`store`) places the
//! pages and blocks of a plan (`layout`), writes the blocks (`block`), the pages of the two B-trees (`pages`), the
//! allocation maps (`maps`) and the header (`header`), and seals each of them (`seal`).
//!
//! Begin with `build`, which makes the image of a `Plan`. `m0`, `m1` and `m2` give small images, and `m0_plan`,
//! `m1_plan` and `m2_plan` their plans. `change_all` does each `Change` of a list to an image, seals among them:
//!
//! ```text
//! let mut plan = m0_plan(alloc)?;
//! plan.nodes.push(NodePlan { nid: 0x142, bid_data: 8, bid_sub: 0, parent: 0x122 })?;
//! let mut image = build(alloc, &plan)?;
//! change_all(&mut image, &[Change::Set(0x4404, &[0xe0]), Change::Page(0x4400)])?;
//! ```
//!
//! `encode` encodes the data blocks of a store by a method, and says so in its header:
//!
//! ```text
//! encode(alloc, &mut image, &plan, Method::Cyclic)?;
//! ```
#![tactic(auto)]

mod block;
mod bodies;
mod change;
mod encoding;
mod header;
mod images;
mod layout;
mod maps;
mod number;
mod pages;
mod plan;
mod seal;
mod store;

pub use change::{Change, ChangeFault, change_all, flip, set};
pub use encoding::{encode, encode_block};
pub use images::{m0, m0_plan, m1, m1_plan, m2, m2_plan};
pub use layout::BlockPlace;
pub use plan::{BlockPlan, MakeFault, NodePlan, Plan};
pub use pst_encoding::{Codec, Method};
pub use seal::{seal_block, seal_header, seal_page};
pub use store::build;
