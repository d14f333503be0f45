//! That what the look-ups of a store give has the clauses by which the law of look-ups knows them.

ghost use Rattle.pst_store.specs.LookUps.{GivesNode, GivesStoreProps, GivesNames, GivesName, GivesRoot, GivesFolder, GivesFolders, GivesMessage, GivesMessages};

use crate::folders::Folders;
use crate::messages::Messages;
use crate::store::Store;
use pst_msg::{Folder, Message, Name, NameMap, Pc};
use pst_ndb::Node;

/// What a store gives: the node with an identifier, and its own properties.
pub fn store_gives<'a>(store: &Store<'a>, nid: u32) -> (Option<Node<'a>>, Pc<'a>)
    ensures node { GivesNode store.now nid result.0 }
    ensures props { GivesStoreProps store.now result.1 }
{
    (store.node(nid), store.props())
}

/// The name map that it gives, and what it says that the property with an identifier is called.
pub fn store_gives_names<'a>(store: &Store<'a>, id: u16) -> (Option<NameMap<'a>>, Option<Name<'a>>)
    ensures names { GivesNames store.now result.0 }
    ensures name { GivesName store.now id result.1 }
{
    (store.names(), store.name(id))
}

/// The folders that it gives: the root folder, the one with an identifier, and all of them.
pub fn store_gives_folders<'a>(
    store: &Store<'a>,
    nid: u32,
) -> (Folder<'a>, Option<Folder<'a>>, Folders<'a>)
    ensures root { GivesRoot store.now result.0 }
    ensures folder { GivesFolder store.now nid result.1 }
    ensures folders { GivesFolders store.now result.2 }
{
    (store.root(), store.folder(nid), store.folders())
}

/// The messages that it gives: the one with an identifier, and all of them.
pub fn store_gives_messages<'a>(store: &Store<'a>, nid: u32) -> (Option<Message<'a>>, Messages<'a>)
    ensures message { GivesMessage store.now nid result.0 }
    ensures messages { GivesMessages store.now result.1 }
{
    (store.message(nid), store.messages())
}
