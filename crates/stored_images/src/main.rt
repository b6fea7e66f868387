// The stored images on standard input, gathered for the tape store and scattered: what a plain writing gives of them is the file stdout.
#![tactic(auto)]

ghost use Rattle.std.specs.Prelude.{◌<◌, ◌^◌};

use inputs::closed::ClosedIsEmpty;
use inputs::full::read_full;
use sectors::fnv::digest;
use std::io;
use std::io::{BufWriter, Read, Write};
use tape::store::{UnequalLengths, gather_sectors, scatter_sectors};

// Bytes of the images: no sector; two sectors and a rest; three sectors.
const NO_SECTOR: usize = 2063;

const TWO_AND_A_REST: usize = 4829;

const THREE: usize = 6192;

// Has a buffer filled, and writes a line of what was done, the number of its refusal, 0 for none, and the digest of the buffer after it.
fn print_way<W: Fn(&[u8], &mut [u8]) -> Result<(), UnequalLengths> + Drop>(
    output: &mut impl Write,
    done: &str,
    way: W,
    from: &[u8],
    to: &mut [u8],
) -> io::Result<()>
    requires { W.IsAlwaysCallable way }
{
    let refusal = way(from, to).map_or_else(u8::from, |()| 0);
    writeln!(output, "{done} {refusal} {:016x}", digest(to))
}

// The next image of so many bytes: both ways, and what each gives back; then into a buffer of another length, which stays.
fn print_image<const N: usize>(input: &mut impl Read, output: &mut impl Write) -> io::Result<()>
    requires { N < 2 ^ 63 }
{
    let mut image = [0u8; N];
    let mut out = [0u8; N];
    let mut back = [0u8; N];
    let mut byte = [0x5Au8; 1];
    read_full(input, &mut image)?;
    print_way(output, "gathered", gather_sectors, &image, &mut out)?;
    print_way(output, "scattered again", scatter_sectors, &out, &mut back)?;
    print_way(output, "scattered", scatter_sectors, &image, &mut out)?;
    print_way(output, "gathered again", gather_sectors, &out, &mut back)?;
    print_way(
        output,
        "gathered into a byte",
        gather_sectors,
        &image,
        &mut byte,
    )?;
    print_way(
        output,
        "scattered into a byte",
        scatter_sectors,
        &image,
        &mut byte,
    )
}

fn main(rt: HostRuntime) -> io::Result<()> {
    let mut input = ClosedIsEmpty(rt.stdin());
    let mut output = BufWriter::new(rt.alloc(), rt.stdout())?;
    print_image::<NO_SECTOR>(&mut input, &mut output)?;
    print_image::<TWO_AND_A_REST>(&mut input, &mut output)?;
    print_image::<THREE>(&mut input, &mut output)?;
    output.flush()
}
