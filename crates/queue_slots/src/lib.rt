// The messages that are held, in areas that the host lends: slots 0 to 191 hold user messages, 192 to 255 management messages.
#![tactic(auto)]

pub mod message;
