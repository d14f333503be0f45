//! The fixed images, as plans and as bytes.

ghost use Rattle.std.specs.Prelude.{◌≡◌, ◌≤◌, ◌<◌, [], ◌∷◌, false, length, map, IfOk};
ghost use Rattle.pst_make.specs.Layout.{plan_end, store_limit};
ghost use Rattle.pst_make.specs.Made.{IsMade};
ghost use Rattle.pst_make.specs.Plan.{bids_of, bodies_of, first_bids, has_long_body};

use crate::bodies::{FOLDER, NAMED_FOLDER, NAMES, STORE, TABLE};
use crate::plan::{BlockPlan, MakeFault, NodePlan, Plan};
use crate::store::build;
use std::alloc::{AllocError, Global};

// The nodes of the fixed images. The node of the message store is 0x21, that of the root folder 0x122, that of the
// name map 0x61; 0x12D is the root folder's hierarchy table, and 0x142 is a folder below it.
const MESSAGE_STORE: NodePlan = NodePlan {
    nid: 0x21,
    bid_data: 4,
    bid_sub: 0,
    parent: 0,
};

const ROOT_FOLDER: NodePlan = NodePlan {
    nid: 0x122,
    bid_data: 8,
    bid_sub: 0,
    parent: 0x122,
};

const NAME_MAP: NodePlan = NodePlan {
    nid: 0x61,
    bid_data: 12,
    bid_sub: 0,
    parent: 0,
};

const HIERARCHY: NodePlan = NodePlan {
    nid: 0x12d,
    bid_data: 12,
    bid_sub: 0,
    parent: 0,
};

const SUBFOLDER: NodePlan = NodePlan {
    nid: 0x142,
    bid_data: 8,
    bid_sub: 0,
    parent: 0x122,
};

// A plan of blocks with these bodies, whose identifiers are 4, 8 and on, and of these nodes.
fn plan_of(alloc: Global, bodies: &[&[u8]], nodes: &[NodePlan]) -> Result<Plan, AllocError>
    requires { length bodies.now < 16 }
    ensures bodies { IfOk result (λ plan.
        bodies_of plan.blocks.items ≡ map (λ body. body.now) bodies.now) }
    ensures bids { IfOk result (λ plan.
        bids_of plan.blocks.items ≡ first_bids (length bodies.now)) }
    ensures nodes { IfOk result (λ plan. plan.nodes.items ≡ nodes.now) }
{
    let mut blocks = Vec::new(alloc);
    let mut bid = 4;
    for body in bodies {
        let body = Vec::from_slice(alloc, *body)?;
        blocks.push(BlockPlan { bid, body })?;
        bid += 4;
    }
    let nodes = Vec::from_slice(alloc, nodes)?;
    Ok(Plan { blocks, nodes })
}

/// The plan of M0: a message store and a root folder, each a property context in a block of its own.
pub fn m0_plan(alloc: Global) -> Result<Plan, AllocError>
    ensures bodies { IfOk result (λ plan. bodies_of plan.blocks.items ≡ STORE ∷ FOLDER ∷ []) }
    ensures bids { IfOk result (λ plan. bids_of plan.blocks.items ≡ 4 ∷ 8 ∷ []) }
    ensures nodes { IfOk result (λ plan. plan.nodes.items ≡ MESSAGE_STORE ∷ ROOT_FOLDER ∷ []) }
{
    plan_of(alloc, &[&STORE, &FOLDER], &[MESSAGE_STORE, ROOT_FOLDER])
}

/// The plan of M1: M0 with a hierarchy table of the root folder, and the one folder that it names. The folder has the
/// same block as the root folder.
pub fn m1_plan(alloc: Global) -> Result<Plan, AllocError>
    ensures bodies { IfOk result (λ plan.
        bodies_of plan.blocks.items ≡ STORE ∷ FOLDER ∷ TABLE ∷ []) }
    ensures bids { IfOk result (λ plan. bids_of plan.blocks.items ≡ 4 ∷ 8 ∷ 12 ∷ []) }
    ensures nodes { IfOk result (λ plan.
        plan.nodes.items ≡ MESSAGE_STORE ∷ ROOT_FOLDER ∷ HIERARCHY ∷ SUBFOLDER ∷ []) }
{
    plan_of(
        alloc,
        &[&STORE, &FOLDER, &TABLE],
        &[MESSAGE_STORE, ROOT_FOLDER, HIERARCHY, SUBFOLDER],
    )
}

/// The plan of M2: M0 with a name map, and a named property in the root folder.
pub fn m2_plan(alloc: Global) -> Result<Plan, AllocError>
    ensures bodies { IfOk result (λ plan.
        bodies_of plan.blocks.items ≡ STORE ∷ NAMED_FOLDER ∷ NAMES ∷ []) }
    ensures bids { IfOk result (λ plan. bids_of plan.blocks.items ≡ 4 ∷ 8 ∷ 12 ∷ []) }
    ensures nodes { IfOk result (λ plan.
        plan.nodes.items ≡ MESSAGE_STORE ∷ NAME_MAP ∷ ROOT_FOLDER ∷ []) }
{
    plan_of(
        alloc,
        &[&STORE, &NAMED_FOLDER, &NAMES],
        &[MESSAGE_STORE, NAME_MAP, ROOT_FOLDER],
    )
}

// The image of a plan that is small enough.
fn image_of(alloc: Global, plan: &Plan) -> Result<Vec<u8>, AllocError>
    requires short { has_long_body plan.now.blocks.items ≡ false }
    requires fits { plan_end plan.now ≤ store_limit }
    ensures { IfOk result (IsMade plan.now) }
{
    match build(alloc, plan) {
        Ok(image) => Ok(image),
        Err(MakeFault::Memory) => Err(AllocError),
        Err(MakeFault::TooLarge | MakeFault::Body) => unreachable!(),
    }
}

/// The image M0, of 271,360 bytes.
pub fn m0(alloc: Global) -> Result<Vec<u8>, AllocError>
    ensures { IfOk result (λ image. length image.items ≡ 271360) }
{
    let plan = m0_plan(alloc)?;
    image_of(alloc, &plan)
}

/// The image M1, of 271,360 bytes.
pub fn m1(alloc: Global) -> Result<Vec<u8>, AllocError>
    ensures { IfOk result (λ image. length image.items ≡ 271360) }
{
    let plan = m1_plan(alloc)?;
    image_of(alloc, &plan)
}

/// The image M2, of 271,360 bytes.
pub fn m2(alloc: Global) -> Result<Vec<u8>, AllocError>
    ensures { IfOk result (λ image. length image.items ≡ 271360) }
{
    let plan = m2_plan(alloc)?;
    image_of(alloc, &plan)
}
