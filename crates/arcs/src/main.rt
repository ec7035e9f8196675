// The program arcs: reads a lexicon image from standard input, and writes to standard output what crates/report says.
//
// Input is read up to 65,535 bytes, as hits reads an image; the longest lexicon has 9,206. What is printed lies in the
// page. The proof rests on what the standard library says of reads and writes.
#![tactic(auto)]

use reading::read_full;
use report::arcs_page;
use std::io;

fn main(rt: HostRuntime) -> io::Result<()> {
    let mut image = [0; 65535];
    let got = read_full(&mut rt.stdin(), &mut image)?;
    let page = arcs_page(&image[..got]);
    rt.write_all(&page.text[..page.length])
}
