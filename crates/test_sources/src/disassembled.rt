//! Cells and the source that they are disassembled to, as docs/ASSEMBLER.md and the tools have them.
use pp_disassembly::{disassemble, write_source};
use pp_notation::{Cell, are_cells};
use std::process::Abort;

/// Checks the source of words from an address on, entered there.
fn check(rt: &(impl Abort + AllocGlobal), first: u16, words: &[u16], source: &[u8]) {
    let mut cells = Vec::new(rt.alloc());
    let mut address = first;
    for word in words {
        let word = *word;
        assert!(rt;
            cells
                .push(Cell {
                    address,
                    word,
                    line: 1
                })
                .is_ok()
        );
        address = address.wrapping_add(1);
    }
    assert!(rt; are_cells(&cells));
    match disassemble(rt.alloc(), &cells, &[first]) {
        Ok(statements) => {
            let text = write_source(rt.alloc(), &statements);
            assert!(rt; text.is_ok_and(|text| text.as_slice() == source));
        }
        Err(_) => assert!(rt; false),
    }
}

#[test]
fn writes_what_the_tool_writes(rt: HostRuntime) {
    let words = [
        0o1405, 0o0200, 0o0111, 0o5400, 0o0112, 0o0375, 0o1077, 0o0365, 0o0100, 0o0110, 0o1042, 0,
        0, 0, 0, 0, 0o7,
    ];
    let source = b"          BASE   OCTAL
          ORG    100
 L0100    LDN    5
          RJM    S0111
 L0103    STM    D0112
          UJN    L0103
          CON    1077,365              H;C_
 S0111    SUBR
 D0112    SHN    -35
          BSSZ   5
          CON    7                     :G
          END    L0100
";
    check(&rt, 0o100, &words, source.as_slice());
}

#[test]
fn names_an_entry_by_itself_if_its_exit_leads_elsewhere(rt: HostRuntime) {
    let words = [
        0o200, 0o111, 0o2000, 0o100, 0o5400, 0o101, 0o6401, 0o104, 0o100, 0o102, 0o7112, 0o102,
        0o700, 0,
    ];
    let source = b"          BASE   OCTAL
          ORG    100
 L0100    RJM    S0111
 L0102    LDC    100
 L0104    STM    L0100+1
          AJM    L0104,1
 S0111X   LJM    L0102
 S0111    EQU    *-1
          IAM    L0102,12
          MJN    *
          CON    0                     ::
          END    L0100
";
    check(&rt, 0o100, &words, source.as_slice());
}
