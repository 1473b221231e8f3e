// Discrimination: what a message is to this node, before any state is looked at.
#![tactic(auto)]

ghost use Rattle.plan_words.specs.Words.{plan_of};
ghost use Rattle.std.specs.Prelude.{◌≡◌};
ghost use Rattle.discrimination.specs.Discrimination as Discrimination;

use plan_words::read::{code, ni};
use wire::header::{Header, Label, read_header};
use wire_messages::management::{Message, read_message};

// A management message for us, and who sent it with which SLC.
#[derive(Clone, Copy)]
pub struct Order {
    pub point: u16,
    pub slc: u8,
    pub message: Message,
}

#[derive(Clone, Copy)]
pub enum Came {
    // Reply 3.
    Malformed,
    // Reply 4: its NI isn't ours.
    Foreign,
    // For our users.
    Delivered,
    // For our own management.
    Managed(Order),
    // For another point.
    Passed(Label),
}

// A message for our code.
#[tactic(auto, unfolding(crate::specs::Discrimination::ours, crate::specs::Discrimination::managed))]
fn ours(plan: &[u16; 1024], header: Header, message: &[u8]) -> Came
    ensures { result ≡ Discrimination.ours (plan_of plan) header message.now }
{
    let label = header.label;
    if 0 < header.si {
        return if header.ni == ni(plan) {
            Came::Delivered
        } else {
            Came::Foreign
        };
    }
    let Some(read) = read_message(message) else {
        return Came::Malformed;
    };
    if header.ni == ni(plan) {
        Came::Managed(Order {
            point: label.opc,
            slc: label.sls,
            message: read,
        })
    } else {
        Came::Foreign
    }
}

// A message from a link.
#[tactic(auto, unfolding(crate::specs::Discrimination::from_link_by))]
pub fn from_link(plan: &[u16; 1024], message: &[u8]) -> Came
    ensures { result ≡ Discrimination.from_link (plan_of plan) message.now }
{
    let Some(header) = read_header(message) else {
        return Came::Malformed;
    };
    let label = header.label;
    if label.dpc == code(plan) {
        return ours(plan, header, message);
    }
    if header.ni == ni(plan) {
        Came::Passed(label)
    } else {
        Came::Foreign
    }
}

// A message from the host.
#[tactic(auto, unfolding(crate::specs::Discrimination::from_host_by))]
pub fn from_host(plan: &[u16; 1024], message: &[u8]) -> Came
    ensures { result ≡ Discrimination.from_host (plan_of plan) message.now }
{
    let Some(header) = read_header(message) else {
        return Came::Malformed;
    };
    let label = header.label;
    if header.si == 0 {
        return Came::Malformed;
    }
    if label.opc != code(plan) {
        return Came::Malformed;
    }
    if header.ni == ni(plan) {
        Came::Passed(label)
    } else {
        Came::Foreign
    }
}
