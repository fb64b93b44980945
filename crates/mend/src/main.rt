// The program mend: one stripe file from standard input, what mending it gives on standard output.
#![tactic(auto)]

mod patience;
mod streams;

use streams::ReadFailed;

// How many bytes the longest file has.
const LONGEST: usize = 584;

// How many are read at most: one more.
const INPUT: usize = LONGEST + 1;

fn main(rt: HostRuntime) {
    let mut file = [0u8; INPUT];
    let got = match streams::read_whole(&mut rt.stdin(), &rt, &mut file) {
        Ok(got) => got,
        Err(ReadFailed) => {
            let _ = streams::write_whole(
                &mut rt.stderr(),
                &rt,
                b"mend: the input cannot be read\n",
            );
            // as a file of no bytes is, the input is then refused as 20
            0
        }
    };
    let mut out = [0u8; texts::ROOM];
    let size = printing::text(&file[..got], &mut out);
    if streams::write_whole(&mut rt.stdout(), &rt, &out[..size]).is_err() {
        let _ = streams::write_whole(
            &mut rt.stderr(),
            &rt,
            b"mend: the output cannot be written\n",
        );
    }
}
