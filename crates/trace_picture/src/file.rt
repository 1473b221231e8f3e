// The file of a drawing. Its size is known only at its end, and stands in a fixed place at its head.
use std::fs::File;
use std::io;
use std::io::{Error, ErrorKind};
use std::num::wrapping_add_u64;
use std::os::unix::fs::FileExt;
use text::part::between;
use text::put::put;
use text_decimals::decimal::put_decimal;
use tool_files::complaint::complain_of;
use tool_files::writer::{Writer, add, closed, flush, onto};

// The file, how far down it is drawn, and how wide.
#[derive(Drop)]
pub struct Picture {
    pub file: Writer<File>,
    pub y: u64,
    pub wide: u64,
}

// Where the first ladder begins.
const TOP: u64 = 40;

// A drawing in a file that is empty, which begins with what its arrows mean.
pub fn begin(file: File, area: &mut [u8; 65536]) -> Picture {
    let mut next = onto(file);
    next = with_styles(next, area);
    next = with_points(next, area);
    next = with_legend(next, area);
    Picture {
        file: next,
        y: TOP,
        wide: 1000,
    }
}

// The head, and how texts and arrows look.
fn with_styles(file: Writer<File>, area: &mut [u8; 65536]) -> Writer<File> {
    add(
        file,
        area,
        b"<svg xmlns=\"http://www.w3.org/2000/svg\" width=\"0000000000\" height=\"0000000000\">
<title>Changeovers</title>
<style>
text { font: 14px sans-serif; fill: #1f2328; dominant-baseline: middle }
.t { font-weight: bold }
.n { fill: #59636e }
.h { text-anchor: middle; font-weight: bold }
line { stroke-width: 2 }
.v { stroke: #8c959f; stroke-width: 1 }
.taken { stroke: #1a7f37; marker-end: url(#taken) }
.moved { stroke: #0969da; marker-end: url(#moved) }
.twice { stroke: #8250df; stroke-dasharray: 10 3; marker-end: url(#twice) }
.cut { stroke: #bc4c00; stroke-dasharray: 6 4; marker-end: url(#cut) }
.unknown, .dropped { stroke: #cf222e; stroke-dasharray: 2 4; marker-end: url(#dropped) }
.told { stroke: #59636e; marker-end: url(#told) }
.fails { stroke: #cf222e; stroke-width: 4 }
</style>
",
    )
}

// The points of the arrows.
fn with_points(file: Writer<File>, area: &mut [u8; 65536]) -> Writer<File> {
    add(
        file,
        area,
        b"<defs>
<marker id=\"taken\" markerUnits=\"userSpaceOnUse\" markerWidth=\"12\" markerHeight=\"12\" refX=\"11\" refY=\"6\" orient=\"auto\">
<path d=\"M0 1L12 6L0 11z\" fill=\"#1a7f37\"/></marker>
<marker id=\"moved\" markerUnits=\"userSpaceOnUse\" markerWidth=\"12\" markerHeight=\"12\" refX=\"11\" refY=\"6\" orient=\"auto\">
<path d=\"M0 1L12 6L0 11z\" fill=\"#0969da\"/></marker>
<marker id=\"twice\" markerUnits=\"userSpaceOnUse\" markerWidth=\"12\" markerHeight=\"12\" refX=\"11\" refY=\"6\" orient=\"auto\">
<path d=\"M0 1L12 6L0 11z\" fill=\"#8250df\"/></marker>
<marker id=\"told\" markerUnits=\"userSpaceOnUse\" markerWidth=\"12\" markerHeight=\"12\" refX=\"11\" refY=\"6\" orient=\"auto\">
<path d=\"M0 1L12 6L0 11z\" fill=\"#59636e\"/></marker>
<marker id=\"cut\" markerUnits=\"userSpaceOnUse\" markerWidth=\"12\" markerHeight=\"12\" refX=\"6\" refY=\"6\">
<path d=\"M1 1L11 11M11 1L1 11\" stroke=\"#bc4c00\" stroke-width=\"2\"/></marker>
<marker id=\"dropped\" markerUnits=\"userSpaceOnUse\" markerWidth=\"12\" markerHeight=\"12\" refX=\"6\" refY=\"6\">
<path d=\"M1 1L11 11M11 1L1 11\" stroke=\"#cf222e\" stroke-width=\"2\"/></marker>
</defs>
",
    )
}

// What the arrows mean, in a line at the top.
fn with_legend(file: Writer<File>, area: &mut [u8; 65536]) -> Writer<File> {
    add(
        file,
        area,
        b"<rect width=\"100%\" height=\"100%\" fill=\"#ffffff\"/>
<line class=\"taken\" x1=\"16\" y1=\"24\" x2=\"56\" y2=\"24\"/><text x=\"64\" y=\"24\">taken</text>
<line class=\"cut\" x1=\"130\" y1=\"24\" x2=\"164\" y2=\"24\"/><text x=\"178\" y=\"24\">not taken</text>
<line class=\"unknown\" x1=\"266\" y1=\"24\" x2=\"300\" y2=\"24\"/><text x=\"314\" y=\"24\">not known whether taken, or dropped</text>
<line class=\"moved\" x1=\"616\" y1=\"24\" x2=\"656\" y2=\"24\"/><text x=\"664\" y=\"24\">moved</text>
<line class=\"twice\" x1=\"736\" y1=\"24\" x2=\"776\" y2=\"24\"/><text x=\"784\" y=\"24\">moved, may arrive twice</text>
",
    )
}

// The drawing ends, and its size is put in its place. Answers whether all could be written; what couldn't is told.
pub fn end(rt: &HostRuntime, picture: Picture, area: &mut [u8; 65536]) -> bool {
    let wide = picture.wide;
    let high = wrapping_add_u64(picture.y, 60);
    let mut file = picture.file;
    if picture.y == TOP {
        file = add(
            file,
            area,
            b"<text x=\"16\" y=\"60\">No link went out.</text>\n",
        );
    }
    file = add(file, area, b"</svg>\n");
    file = flush(file, area);
    let sized = put_size(&file.file, wide, high);
    file = closed(file);
    match file.failed.or(sized.err()) {
        Some(error) => {
            complain_of(rt, b"trace", b"the picture", error);
            false
        }
        None => true,
    }
}

// Width and height, in ten digits each, behind the 39 octets that a drawing begins with.
fn put_size(file: &File, wide: u64, high: u64) -> io::Result<()> {
    let mut out = [0u8; 64];
    let at = put(&mut out, 0, b" width=\"");
    let at = put_ten(&mut out, at, wide);
    let at = put(&mut out, at, b"\" height=\"");
    let at = put_ten(&mut out, at, high);
    file.write_all_at(between(&out, 0, at), 39)
}

fn put_ten(out: &mut [u8], at: usize, number: u64) -> usize {
    let shown = number % 10000000000;
    let mut digits = [0u8; 20];
    let length = put_decimal(&mut digits, 0, shown);
    let at = put(out, at, between(b"0000000000", length, 10));
    put_decimal(out, at, shown)
}
