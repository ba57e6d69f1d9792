// What reads here, over std. The program replay_arithmetic has the same function: two programs can share code only by a crate of its own, which this is too little for.
ghost use Rattle.std.specs.Prelude.{◌≤◌, length};

use std::io::Read;

// Reads until the buffer is full, the input ends or a read fails, which is not told of: how many bytes stand at the buffer's start then.
// `Read::read_exact` does not tell how many.
pub fn read_full<R: Read>(from: &mut R, buf: &mut [u8]) -> usize
    ensures { result ≤ length buf.new }
{
    let mut done = 0usize;
    while done < buf.len() {
        let got = from.read(&mut buf[done..]).unwrap_or(0);
        if got == 0 {
            break;
        }
        done += got;
    }
    done
}
