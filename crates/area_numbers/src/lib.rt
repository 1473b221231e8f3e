// The numbers of a link, each in its word of the link's row: stored alone, every other word as it stands.
#![tactic(auto)]

ghost use Rattle.std.specs.Prelude.{◌≡◌, ◌<◌};
ghost use Rattle.constants.specs.Constants.{link_count};
ghost use Rattle.area_rows.specs.Rows.{with_word};
ghost use Rattle.area_numbers.specs.LinkWords.{with_acknowledged, with_received, with_sent};

use constants::LINKS;

// One word of a link's row alone.
fn store_word(links: &mut [u32; 256], link: u8, place: usize, number: u8)
    requires { place < 8 }
    ensures { links.new ≡ with_word link_count 8 links.old link place number }
{
    if LINKS <= link {
        return;
    }
    links[8 * (link as usize) + place] = number as u32;
}

// A message moves one or two of a link's numbers: their words alone are written.
pub fn store_acknowledged(links: &mut [u32; 256], link: u8, number: u8)
    ensures { links.new ≡ with_acknowledged links.old link number }
{
    store_word(links, link, 1, number);
}

pub fn store_received(links: &mut [u32; 256], link: u8, number: u8)
    ensures { links.new ≡ with_received links.old link number }
{
    store_word(links, link, 2, number);
}

pub fn store_sent(links: &mut [u32; 256], link: u8, number: u8)
    ensures { links.new ≡ with_sent links.old link number }
{
    store_word(links, link, 3, number);
}
