// The customer's sheet, and cards of disc reading: a disc image is made in memory for each run, and what is read of it is written under
// the run's name.
#![tactic(auto)]

mod image;
mod print;

use disc::regions::{WARNING_WORDS, WORK_BYTES};
use image::{IMAGE_BYTES, MASTER_END, Pointer, put, put_master, put_number, put_table, zeros};
use print::{print_format, print_reading, print_refusal};
use std::io;
use std::io::{BufWriter, Write};

// A table of three sectors in two copies: the first lies at the image's end, so that a cut takes it and leaves the second.
const FIRST_COPY: u32 = 520;

const SECOND_COPY: u32 = 400;

// Where the other runs have a table.
const TABLE: u32 = 200;

// A disc with both copies of a two-channel table.
fn put_copies(image: &mut [u8]) {
    let pointer = Pointer {
        toc1: FIRST_COPY,
        toc2: SECOND_COPY,
        sectors: 3,
    };
    put_master(image, pointer, Pointer::default());
    put_table(image, FIRST_COPY);
    put_table(image, SECOND_COPY);
}

// What the master table says of one copy of a table, of so many sectors.
fn one_copy(sectors: u16) -> Pointer {
    Pointer {
        toc1: TABLE,
        toc2: 0,
        sectors,
    }
}

// A disc with one two-channel table, of so many sectors.
fn put_one_table(image: &mut [u8], sectors: u16) {
    put_master(image, one_copy(sectors), Pointer::default());
    put_table(image, TABLE);
}

// A disc with a play time of 4,500 frames: the first track lasts 1:00:01, 4,501 frames; the second, at LSN 1,500, of 250 sectors, starts at 1:01:25, frame
// 4,600, and lasts 0:00:00.
fn put_overrun(image: &mut [u8]) {
    put_one_table(image, 3);
    put(image, TABLE, 69, &[2]);
    put(image, TABLE, 4096 + 1028 + 2, &[1]);
    put_number(image, TABLE, 2048 + 8 + 4, 1500);
    put_number(image, TABLE, 2048 + 1028 + 4, 250);
    put(image, TABLE, 4096 + 8 + 4, &[1, 1, 25]);
}

// A disc with a two-channel table of 129 sectors, and a multichannel one of three in two copies.
fn put_large(image: &mut [u8]) {
    let multichannel = Pointer {
        toc1: 400,
        toc2: 410,
        sectors: 3,
    };
    put_master(image, one_copy(129), multichannel);
    for lsn in [TABLE, 400, 410] {
        put_table(image, lsn);
    }
}

// A disc whose table has the same start and end LSN.
fn put_one_sector(image: &mut [u8]) {
    put_one_table(image, 3);
    put_number(image, TABLE, 76, 1000);
}

// Writes a run's name, and what is read of its image cut to so many bytes, for each of the lengths.
fn print_run<P: FnOnce(&mut [u8]) + Drop>(
    out: &mut impl Write,
    name: &str,
    put: P,
    lengths: &[usize],
) -> io::Result<()>
    requires { P.IsAlwaysCallable put }
{
    let mut image = zeros();
    put(&mut image);
    writeln!(out, "{name}")?;
    for n in lengths {
        print_reading(out, &image[..IMAGE_BYTES.min(*n)])?;
    }
    Ok(())
}

// One work byte or one warning word too few: 2. Enough of both: 3, for an image without a sector.
fn short_buffers(out: &mut impl Write) -> io::Result<()> {
    writeln!(out, "short_buffers")?;
    print_refusal(out, WORK_BYTES - 1, WARNING_WORDS)?;
    print_refusal(out, WORK_BYTES, WARNING_WORDS - 1)?;
    print_refusal(out, WORK_BYTES, WARNING_WORDS)
}

// The master table's signature where LSN 510 begins in format 1, then in 2 too, then in 0 too: of 1 and 2 it is 2 that is found.
fn detection_order(out: &mut impl Write) -> io::Result<()> {
    let mut image = zeros();
    writeln!(out, "detection_order")?;
    print_format(out, &image)?;
    for (lsn, offset) in [(511, 1018), (513, 2028), (510, 0)] {
        put(&mut image, lsn, offset, b"SACDMTOC");
        print_format(out, &image)?;
    }
    Ok(())
}

fn runs(out: &mut impl Write) -> io::Result<()> {
    // Cut inside the last sector of the master table, then inside that of the first copy: half a sector is none.
    let cuts = [MASTER_END - 1024, IMAGE_BYTES - 1024];
    print_run(out, "sheet_cut", put_copies, &cuts)?;
    // With both copies, then without the first.
    let copies = [IMAGE_BYTES, MASTER_END];
    print_run(out, "sheet_copy", put_copies, &copies)?;
    let whole = [IMAGE_BYTES];
    print_run(out, "sheet_playtime", put_overrun, &whole)?;
    // A table of 128 sectors is read; one of 129 is skipped, and the other slot's is read.
    print_run(
        out,
        "sectors_128",
        |image| put_one_table(image, 128),
        &whole,
    )?;
    print_run(out, "sectors_129", put_large, &whole)?;
    print_run(out, "equal_lsns", put_one_sector, &whole)
}

fn main(rt: HostRuntime) -> io::Result<()> {
    let mut out = BufWriter::new(rt.alloc(), rt.stdout())?;
    runs(&mut out)?;
    short_buffers(&mut out)?;
    detection_order(&mut out)?;
    out.flush()
}
