//! That what the look-ups give has the clauses by which the laws of look-ups know them.

ghost use Rattle.pst_pc.specs.LookUps.{GivesProp, GivesProps};
ghost use Rattle.pst_names.specs.LookUps.{GivesNameOf};
ghost use Rattle.pst_ndb.specs.Views.{table_of_node, roots_of};
ghost use Rattle.pst_tc.specs.Tc.{node_of_tc};
ghost use Rattle.pst_tc.specs.Values.{IsFirstColumn};
ghost use Rattle.pst_tc.specs.View.{column_of, tc_of_row};
ghost use Rattle.pst_tc.specs.LookUps.{GivesColumns, GivesRows, GivesRowCount, GivesRow, GivesCell};
ghost use Rattle.pst_mail.specs.declared.items.Items.TheVariants.{Subfolders, Messages, Associated};
ghost use Rattle.pst_mail.specs.NodeLookUps.{GivesBytes, GivesSub};
ghost use Rattle.pst_mail.specs.LookUps.{GivesTable, GivesRecipients, GivesAttachmentTable, GivesAttachments, GivesAttachment, GivesEmbedded};

use crate::attachment_view::Attachment;
use crate::attachments::Attachments;
use crate::folder_view::Folder;
use crate::message_view::Message;
use pst_datatree::Value;
use pst_names::{Name, NameMap};
use pst_ndb::Node;
use pst_pc::{Pc, Prop, Props};
use pst_tc::{Column, Columns, Row, Rows, Tc};

/// What a node gives: its bytes, and the subnode with an identifier.
pub fn node_gives<'a>(node: &Node<'a>, nid: u32) -> (Value<'a>, Option<Node<'a>>)
    ensures bytes { GivesBytes node.now result.0 }
    ensures sub { GivesSub node.now nid result.1 }
{
    (node.bytes(), node.sub(nid))
}

/// What a property context gives: the property with an identifier, and all of them.
pub fn pc_gives<'a>(pc: &Pc<'a>, id: u16) -> (Option<Prop<'a>>, Props<'a>)
    ensures get { GivesProp pc.now id result.0 }
    ensures props { GivesProps pc.now result.1 }
{
    (pc.get(id), pc.props())
}

/// What a name map gives: what the property with an identifier is called.
pub fn names_gives<'a>(names: &NameMap<'a>, id: u16) -> Option<Name<'a>>
    ensures { GivesNameOf names.now id result }
{
    names.name(id)
}

/// What a table context gives: its columns, its rows, how many they are, and the row with an identifier.
pub fn tc_gives<'a>(tc: &Tc<'a>, id: u32) -> (Columns<'a>, Rows<'a>, u64, Option<Row<'a>>)
    ensures columns { GivesColumns tc.now result.0 }
    ensures rows { GivesRows tc.now result.1 }
    ensures row_count { GivesRowCount tc.now result.2 }
    ensures row { GivesRow tc.now id result.3 }
{
    (tc.columns(), tc.rows(), tc.row_count(), tc.row(id))
}

/// What a row gives: the value of its cell under a tag.
pub fn row_gives<'a>(row: &Row<'a>, tag: u32) -> Option<Value<'a>>
    ensures { GivesCell row.now tag result }
{
    row.cell(tag)
}

/// What a row gives: the value of its cell in a column, which is the first of its table with that tag.
pub fn column_gives<'a>(row: &Row<'a>, column: Column) -> Option<Value<'a>>
    requires { let node = node_of_tc (tc_of_row row.now) in
        IsFirstColumn (table_of_node node) (roots_of node) (column_of column) }
    ensures { GivesCell row.now (column_of column).tag result }
{
    row.cell_in(column)
}

/// What a folder gives: the tables of its subfolders, of its messages and of those that belong to the folder itself.
pub fn folder_gives<'a>(folder: &Folder<'a>) -> (Option<Tc<'a>>, Option<Tc<'a>>, Option<Tc<'a>>)
    ensures hierarchy { GivesTable folder.now Subfolders result.0 }
    ensures contents { GivesTable folder.now Messages result.1 }
    ensures associated { GivesTable folder.now Associated result.2 }
{
    (folder.hierarchy(), folder.contents(), folder.associated())
}

/// What a message gives: the table of its recipients, its attachments, the one with an identifier, and the table of its attachments.
pub fn message_gives<'a>(
    message: &Message<'a>,
    nid: u32,
) -> (
    Option<Tc<'a>>,
    Attachments<'a>,
    Option<Attachment<'a>>,
    Option<Tc<'a>>,
)
    ensures recipients { GivesRecipients message.now result.0 }
    ensures attachments { GivesAttachments message.now result.1 }
    ensures attachment { GivesAttachment message.now nid result.2 }
    ensures attachment_table { GivesAttachmentTable message.now result.3 }
{
    (
        message.recipients(),
        message.attachments(),
        message.attachment(nid),
        message.attachment_table(),
    )
}

/// What an attachment gives: the message that it embeds.
pub fn attachment_gives<'a>(attachment: &Attachment<'a>) -> Option<Message<'a>>
    ensures { GivesEmbedded attachment.now result }
{
    attachment.embedded()
}
