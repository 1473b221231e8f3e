// What a call shows: the line of its reply.
#![tactic(auto, unfolding(text_pages::specs::Page::puts))]

pub mod reply;
pub mod shows;
