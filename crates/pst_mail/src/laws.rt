//! Laws of messages and of what messaging is, each the contract of a function that does nothing.

ghost use Rattle.pst_mail.specs.Laws.{MessageLaw, AttachmentLaw, ContentsLaw, LimitLaw, AlikeLaw};
ghost use Rattle.pst_mail.specs.LookUps.{FolderLookUpsLaw, ViewLookUpsLaw};

/// A node whose subnodes have no fault is a message, or an attachment, exactly where it has no first fault as one.
pub fn messages_decide()
    ensures messages { MessageLaw }
    ensures attachments { AttachmentLaw }
{}

/// Where the nodes' trees have no fault, nodes have contents exactly where messaging has no first fault.
pub fn contents_decide()
    ensures { ContentsLaw }
{}

/// A message, and an attachment, say the same under each number of lists that may nest, where their subnodes have no fault.
pub fn limits_agree()
    ensures { LimitLaw }
{}

/// A message, or an attachment, without fault has none where it is named by other identifiers of the same blocks, or reached
/// from another node.
pub fn messages_are_of_keys()
    ensures { AlikeLaw }
{}

/// What folders, messages and attachments are asked, their property contexts and tables, and name maps, they answer by the grammar,
/// in the words and the memory of the file that they are of.
pub fn message_look_ups()
    ensures folders { FolderLookUpsLaw }
    ensures views { ViewLookUpsLaw }
{}
