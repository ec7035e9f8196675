// The program hits: reads standard input, and writes to standard output what crates/report says.
//
// Input is read up to 132,076 bytes: two images of at most 65,535 bytes after their lengths, n, and 1,001 frames. More
// bytes can only be frames after the 1,001st, and with so many the answer is fixed already (`CutReportsTheSame`,
// report/specs/Theorems). What is printed lies in the page. The proof rests on what the standard library
// says of reads and writes.
#![tactic(auto)]

use reading::read_full;
use report::report;
use std::io;

fn main(rt: HostRuntime) -> io::Result<()> {
    let mut input = [0; 132076];
    let got = read_full(&mut rt.stdin(), &mut input)?;
    let page = report(&input[..got]);
    rt.write_all(&page.text[..page.length])
}
