// Page views: their refusals, and the order of the checks.
use crate::outcomes;
use page_view::View;
use processor::Processor;
use std::io;

// The replacement index, the bytes of RAM and the page. The replacement index is the reset machine's, 4, or 3, which is not fit.
const VIEWS: [(&str, u32, usize, u64); 14] = [
    ("", 4, 4096, 0xC_0000),
    ("", 4, 8192, 0xC_0001),
    (" by entry 6 or 7", 4, 8192, 0x23),
    (" past RAM", 4, 4096, 0xC_0001),
    (" past RAM by entry 6 or 7", 4, 4096, 0x23),
    (" of ROM", 4, 4096, 0xE_0000),
    (" without an entry", 4, 4096, 0),
    (" of the last page", 4, 4096, 0xF_FFFF),
    (" past the last page", 4, 4096, 0x10_0000),
    ("", 4, 0, 0xC_0000),
    ("", 4, 4097, 0xC_0000),
    (", not fit", 3, 4096, 0xC_0000),
    (", causes 1, 6 and 8", 3, 4097, 0x10_0000),
    (", causes 6 and 8", 3, 4096, 0x10_0000),
];

// Entries 6 and 7 have one page.
fn machine(replacement: u32) -> Processor {
    let mut p = Processor {
        replacement,
        ..Processor::reset()
    };
    p.tlbhigh[6] = 0x2_3000;
    p.tlblow[6] = 0x1001;
    p.tlbhigh[7] = 0x2_3000;
    p.tlblow[7] = 1;
    p
}

pub fn print_views(rt: &impl Print) -> io::Result<()> {
    let bytes = [outcomes::FILL; 8192];
    for (more, replacement, ram, page) in VIEWS {
        let found = page_view::locate(&bytes[..ram.min(8192)], machine(replacement), page);
        let View {
            refusal,
            slot,
            offset,
            length,
        } = found.into();
        print!(rt; "page view{more}, page {page:05x}, ram {ram} bytes: refusal {refusal}, ")?;
        println!(rt; "slot {slot}, offset {offset}, length {length}")?;
    }
    Ok(())
}
