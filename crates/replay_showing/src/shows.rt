// What a call shows beside its reply.
#[derive(Clone, Copy)]
pub enum Shows {
    Sent,
    Delivered,
    Listed,
    Nothing,
}
