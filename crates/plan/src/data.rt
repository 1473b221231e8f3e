// The plan: a value that no call changes. A plan of zeros has nothing in it, and no node.
ghost use Rattle.std.specs.Prelude.{◌≡◌};
ghost use Rattle.plan.specs.Data.{empty_plan};

// A route of a destination by a set; its place among the four is its rank, 0 the best.
#[repr(C)]
#[derive(Clone, Copy)]
pub struct Route {
    pub given: bool,
    pub set: u8,
}

pub const NO_ROUTE: Route = Route {
    given: false,
    set: 0,
};

#[repr(C)]
#[derive(Clone, Copy)]
pub struct Destination {
    pub code: u16,
    pub routes: [Route; 4],
}

// A set, its adjacent point, and its links in SLC order: the first `count` of the eight.
#[repr(C)]
#[derive(Clone, Copy)]
pub struct LinkSet {
    pub given: bool,
    pub adjacent: u16,
    pub count: u8,
    pub links: [u8; 8],
}

#[repr(C)]
#[derive(Clone, Copy)]
pub struct Link {
    pub given: bool,
    pub set: u8,
    pub slc: u8,
}

// The first `count` destinations are given, in ascending code.
#[repr(C)]
#[derive(Clone, Copy)]
pub struct Plan {
    pub given: bool,
    pub code: u16,
    pub ni: u8,
    pub count: u8,
    pub sets: [LinkSet; 8],
    pub links: [Link; 32],
    pub destinations: [Destination; 64],
}

// The plan with nothing in it.
pub fn empty_plan() -> Plan
    ensures { result ≡ empty_plan }
{
    let set = LinkSet {
        given: false,
        adjacent: 0,
        count: 0,
        links: [0; 8],
    };
    let link = Link {
        given: false,
        set: 0,
        slc: 0,
    };
    let destination = Destination {
        code: 0,
        routes: [NO_ROUTE; 4],
    };
    Plan {
        given: false,
        code: 0,
        ni: 0,
        count: 0,
        sets: [set; 8],
        links: [link; 32],
        destinations: [destination; 64],
    }
}
