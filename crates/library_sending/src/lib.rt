// A link's next message sent, and those before it acknowledged, as C calls it.
#![tactic(auto)]

ghost use Rattle.std.specs.Prelude.{◌≡◌, length};
ghost use Rattle.plan_words.specs.Words.{plan_of};
ghost use Rattle.sending.specs.Send as Send;
ghost use Rattle.queue_heads.specs.Head.{queues_before, queues_after};
ghost use Rattle.acknowledging.specs.Acknowledge as Acknowledge;

use acknowledging::acknowledge;
use replies::{Answer, number};
use sending::send;

// Level 2 asks for a link's next message.
#[unsafe(no_mangle)]
pub extern "C" fn transfer_point_send_lent(
    plan: &[u16; 1024],
    links: &mut [u32; 256],
    spans: &[u16; 70],
    rings: &[u8; 8960],
    rows: &[u64; 2048],
    octets: &[u8; 52416],
    link: u8,
    out: &mut [u8],
) -> Answer
    ensures value { result ≡ Send.answer_of (plan_of plan) links.old spans.now rings.now rows.now link out.old }
    ensures links_value { links.new ≡ Send.links_after (plan_of plan) links.old spans.now link (length out.old) }
    ensures out_value { out.new ≡ Send.out_after (plan_of plan) links.old spans.now rings.now rows.now octets.now link out.old }
{
    send(plan, links, spans, rings, rows, octets, link, out)
}

// Level 2 acknowledges up to b.
#[unsafe(no_mangle)]
pub extern "C" fn transfer_point_acknowledge_lent(
    plan: &[u16; 1024],
    links: &mut [u32; 256],
    spans: &mut [u16; 70],
    rings: &mut [u8; 8960],
    link: u8,
    b: u8,
) -> u8
    ensures value { result ≡ Acknowledge.reply_of (plan_of plan) links.old link b }
    ensures links_value { links.new ≡ Acknowledge.links_after (plan_of plan) links.old link b }
    ensures rings_value { queues_after spans.new rings.new ≡ Acknowledge.queues_after (plan_of plan) links.old (queues_before spans.old rings.old) link b }
{
    number(acknowledge(plan, links, spans, rings, link, b))
}
