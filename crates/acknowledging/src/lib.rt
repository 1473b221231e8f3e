// Acknowledgement: the messages up to a number are retired.
#![tactic(auto)]

ghost use Rattle.plan_words.specs.Words.{plan_of};
ghost use Rattle.std.specs.Prelude.{◌≡◌, IfOk};
ghost use Rattle.replies.specs.Reply.{number_of, refusal_of};
ghost use Rattle.area_links.specs.LinkRecords.{record_at};
ghost use Rattle.queue_heads.specs.Head.{queues_before, queues_after};
ghost use Rattle.acknowledging.specs.Acknowledge as Acknowledge;

use area_links::{LinkRecord, load_link};
use area_numbers::{store_acknowledged, store_sent};
use constants::{LINKS, OPEN};
use counting::{distance, in_range};
use lookup::is_link;
use numbers::left_sent;
use queue_retiring::retire;
use replies::Refusal;

// The record of the link, where the acknowledgement isn't refused.
#[tactic(auto, unfolding(crate::specs::Acknowledge::reply_of, replies::specs::Reply::first))]
fn acknowledged_link(
    plan: &[u16; 1024],
    links: &[u32; 256],
    link: u8,
    b: u8,
) -> Result<LinkRecord, Refusal>
    ensures number { number_of result ≡ Acknowledge.reply_of (plan_of plan) links.now link b }
    ensures known { IfOk result (λ known. known ≡ record_at links.now link) }
{
    if LINKS <= link {
        return Err(Refusal::OutOfRange);
    }
    if 128 <= b {
        return Err(Refusal::OutOfRange);
    }
    if !is_link(plan, link) {
        return Err(Refusal::NotConfigured);
    }
    let known = load_link(links, link);
    if known.state != OPEN {
        return Err(Refusal::Unfit);
    }
    if !in_range(known.acknowledged, known.sent, b) {
        return Err(Refusal::NotNext);
    }
    Ok(known)
}

// Level 2 acknowledges up to b.
#[tactic(auto, unfolding(crate::specs::Acknowledge::links_after, crate::specs::Acknowledge::queues_after))]
pub fn acknowledge(
    plan: &[u16; 1024],
    links: &mut [u32; 256],
    spans: &mut [u16; 70],
    rings: &mut [u8; 8960],
    link: u8,
    b: u8,
) -> Result<(), Refusal>
    ensures value { result ≡ refusal_of (Acknowledge.reply_of (plan_of plan) links.old link b) }
    ensures number { number_of result ≡ Acknowledge.reply_of (plan_of plan) links.old link b }
    ensures links_value { links.new ≡ Acknowledge.links_after (plan_of plan) links.old link b }
    ensures rings_value { queues_after spans.new rings.new ≡ Acknowledge.queues_after (plan_of plan) links.old (queues_before spans.old rings.old) link b }
{
    let known = acknowledged_link(plan, links, link, b)?;
    retire(spans, rings, link, distance(known.acknowledged, b));
    store_sent(links, link, left_sent(known, b));
    store_acknowledged(links, link, b);
    Ok(())
}
