//! The profiles that the tests of joins read.
use coz_files::HeldFile;
use std::alloc::{AllocError, Global};

const HEAD: &[u8] = b"coz-ticks\tversion=1\tbudget=100000000\tpoints=0\n";

const FEW: &[u8] = b"coz-ticks\tversion=1\tbudget=3\tpoints=0\n";

/// The head after the line of a machine, of another, and of the usual one, which has no line.
const ON_FOUR: &[u8] =
    b"coz-timing\tversion=1\tcores=4\tslice=100000\tcosts=1,2,3,3,8,20,1000\tcharge=last\tseed=7\n\
coz-ticks\tversion=1\tbudget=100000000\tpoints=0\n";

const ON_TWO: &[u8] =
    b"coz-timing\tversion=1\tcores=2\tslice=100000\tcosts=1,2,3,3,8,20,1000\tcharge=last\tseed=7\n\
coz-ticks\tversion=1\tbudget=100000000\tpoints=0\n";

const ON_USUAL: &[u8] =
    b"coz-timing\tversion=1\tcores=256\tslice=100000\tcosts=1,2,3,3,8,20,40\tcharge=none\tseed=0\n\
coz-ticks\tversion=1\tbudget=100000000\tpoints=0\n";

const POINT: &[u8] =
    b"coz-ticks\tversion=1\tbudget=100000000\tpoints=1\npoint\tindex=0\tname=one.s:3\n";

const OTHER_POINT: &[u8] =
    b"coz-ticks\tversion=1\tbudget=100000000\tpoints=1\npoint\tindex=0\tname=one.s:2\n";

const CUT: &[u8] = b"coz-ticks\tversion=1\tbudget=100000000\tpoints=0\nexperiment\tsel";

const OUTPUT: &[u8] =
    b"output\tlength=0\tsha256=e3b0c44298fc1c149afbf4c8996fb92427ae41e4649b934ca495991b7852b855\n";

const NO_VISITS: &[u8] =
    b"visits\tsha256=e3b0c44298fc1c149afbf4c8996fb92427ae41e4649b934ca495991b7852b855\n";

const VISITS: &[u8] =
    b"throughput-point\tindex=0\tdelta=1\nvisits\tsha256=a6154681ac3f49d5aa02c9d59a6f7919a1894811055c7460e871f7250cdd1d43\n";

const ONE_0: &[u8] = b"one.s:1\tspeedup=0\tend=exited:0\ttime=4200\tdelay=0\tretired=3\tstarts=1\n";

const ONE_50: &[u8] =
    b"one.s:1\tspeedup=50\tend=exited:0\ttime=4200\tdelay=50\tretired=3\tstarts=1\n";

const TWO_0: &[u8] = b"one.s:2\tspeedup=0\tend=exited:0\ttime=4200\tdelay=0\tretired=3\tstarts=1\n";

const TWO_25: &[u8] =
    b"one.s:2\tspeedup=25\tend=exited:0\ttime=4200\tdelay=25\tretired=3\tstarts=1\n";

const TWO_50: &[u8] =
    b"one.s:2\tspeedup=50\tend=exited:0\ttime=4200\tdelay=50\tretired=3\tstarts=1\n";

const THREE_0: &[u8] =
    b"one.s:3\tspeedup=0\tend=exited:0\ttime=4200\tdelay=0\tretired=3\tstarts=1\n";

const THREE_50: &[u8] =
    b"one.s:3\tspeedup=50\tend=exited:0\ttime=4200\tdelay=2000\tretired=3\tstarts=1\n";

const OTHER_0: &[u8] =
    b"two.s:2\tspeedup=0\tend=exited:0\ttime=8700\tdelay=0\tretired=13\tstarts=1\n";

const OTHER_50: &[u8] =
    b"two.s:2\tspeedup=50\tend=exited:0\ttime=8700\tdelay=50\tretired=13\tstarts=1\n";

const SPENT_0: &[u8] = b"one.s:2\tspeedup=0\tend=spent\ttime=4200\tdelay=0\tretired=3\tstarts=1\n";

const A_10: &[u8] = b"a.s:10\tspeedup=0\tend=exited:0\ttime=9\tdelay=0\tretired=3\tstarts=1\n";

const B_1: &[u8] = b"b.s:1\tspeedup=0\tend=exited:0\ttime=9\tdelay=0\tretired=3\tstarts=2\n";

const A_9: &[u8] = b"a.s:9\tspeedup=0\tend=exited:0\ttime=9\tdelay=0\tretired=3\tstarts=3\n";

const A_S_1: &[u8] = b"a.s.s:1\tspeedup=0\tend=exited:0\ttime=9\tdelay=0\tretired=3\tstarts=4\n";

/// A profile: its head, its blocks from their labels on, and what follows the output of each.
struct Book {
    path: &'static str,
    head: &'static [u8],
    blocks: &'static [&'static [u8]],
    visits: &'static [u8],
}

static BOOKS: [Book; 22] = [
    Book {
        path: "a",
        head: HEAD,
        blocks: &[ONE_0, ONE_50],
        visits: NO_VISITS,
    },
    Book {
        path: "b",
        head: HEAD,
        blocks: &[TWO_0, TWO_50, THREE_0, THREE_50],
        visits: NO_VISITS,
    },
    Book {
        path: "c",
        head: HEAD,
        blocks: &[TWO_0, TWO_50],
        visits: NO_VISITS,
    },
    Book {
        path: "e",
        head: HEAD,
        blocks: &[TWO_0, TWO_25],
        visits: NO_VISITS,
    },
    Book {
        path: "f",
        head: FEW,
        blocks: &[TWO_0, TWO_50],
        visits: NO_VISITS,
    },
    Book {
        path: "g",
        head: POINT,
        blocks: &[TWO_0, TWO_50],
        visits: VISITS,
    },
    Book {
        path: "h",
        head: HEAD,
        blocks: &[OTHER_0, OTHER_50],
        visits: NO_VISITS,
    },
    Book {
        path: "i",
        head: OTHER_POINT,
        blocks: &[THREE_0, THREE_50],
        visits: VISITS,
    },
    Book {
        path: "k",
        head: HEAD,
        blocks: &[],
        visits: NO_VISITS,
    },
    Book {
        path: "m",
        head: HEAD,
        blocks: &[ONE_0],
        visits: NO_VISITS,
    },
    Book {
        path: "n",
        head: CUT,
        blocks: &[],
        visits: NO_VISITS,
    },
    Book {
        path: "all",
        head: HEAD,
        blocks: &[ONE_0, ONE_50, TWO_0, TWO_50, THREE_0, THREE_50],
        visits: NO_VISITS,
    },
    Book {
        path: "s",
        head: HEAD,
        blocks: &[SPENT_0],
        visits: NO_VISITS,
    },
    Book {
        path: "p",
        head: HEAD,
        blocks: &[A_10, B_1],
        visits: NO_VISITS,
    },
    Book {
        path: "q",
        head: HEAD,
        blocks: &[A_9, A_S_1],
        visits: NO_VISITS,
    },
    Book {
        path: "pq",
        head: HEAD,
        blocks: &[A_9, A_10, A_S_1, B_1],
        visits: NO_VISITS,
    },
    Book {
        path: "t-a",
        head: ON_FOUR,
        blocks: &[ONE_0, ONE_50],
        visits: NO_VISITS,
    },
    Book {
        path: "t-b",
        head: ON_FOUR,
        blocks: &[TWO_0, TWO_50, THREE_0, THREE_50],
        visits: NO_VISITS,
    },
    Book {
        path: "t-all",
        head: ON_FOUR,
        blocks: &[ONE_0, ONE_50, TWO_0, TWO_50, THREE_0, THREE_50],
        visits: NO_VISITS,
    },
    Book {
        path: "t-two",
        head: ON_TWO,
        blocks: &[TWO_0, TWO_50],
        visits: NO_VISITS,
    },
    Book {
        path: "t-usual",
        head: ON_USUAL,
        blocks: &[TWO_0, TWO_50],
        visits: NO_VISITS,
    },
    Book {
        path: "t-e",
        head: ON_FOUR,
        blocks: &[TWO_0, TWO_25],
        visits: NO_VISITS,
    },
];

fn text_of(alloc: Global, book: &Book) -> Result<Vec<u8>, AllocError> {
    let mut text = book.head.to_vec(alloc)?;
    for block in book.blocks {
        text.extend_from_slice(b"experiment\tselected=")?;
        text.extend_from_slice(block)?;
        text.extend_from_slice(OUTPUT)?;
        text.extend_from_slice(book.visits)?;
    }
    Ok(text)
}

fn add_book(alloc: Global, files: &mut Vec<HeldFile>, book: &Book) -> Result<(), AllocError> {
    let path = book.path.as_bytes().to_vec(alloc)?;
    let bytes = text_of(alloc, book)?;
    files.push(HeldFile { path, bytes })?;
    Ok(())
}

/// All profiles as files.
pub(crate) fn all_books(alloc: Global) -> Result<Vec<HeldFile>, AllocError> {
    let mut files = Vec::new(alloc);
    for book in &BOOKS {
        add_book(alloc, &mut files, book)?;
    }
    Ok(files)
}
