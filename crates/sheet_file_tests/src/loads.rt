//! Files that load.
use crate::files::{
    SAMPLE, changed, has_link, is_sample, loading_cents, loading_changed, loading_minutes, told,
};
use amount::cents::Cents;
use amount::cents_minutes::CentsMinutes;
use digraph::link::Link;
use digraph::table::LINKS;
use sheet::Sheet;
use sheet_file::load::load;
use std::process::Abort;

/// What a column holds before a load.
const BEFORE: Cents = Cents { cents: -77 };

fn both(cents: i64, minutes: i64) -> CentsMinutes {
    CentsMinutes { cents, minutes }
}

/// Whether a column holds the sample's prices, and elsewhere what it held before.
fn are_sample_prices(prices: &[Cents]) -> bool {
    prices.len() == 200
        && prices.starts_with(&[5, 4, 6].map(|cents| Cents { cents }))
        && prices[3..].iter().all(|price| *price == BEFORE)
}

#[test]
fn the_sample_loads(rt: HostRuntime) {
    let mut sheet = Sheet::new();
    let mut prices = [BEFORE; LINKS];
    assert_eq!(rt; told(load(&mut sheet, &mut prices, &SAMPLE)), (0, 0, 0));
    assert!(rt; is_sample(&sheet) && are_sample_prices(&prices));
}

#[test]
fn a_load_replaces_the_sheet_and_keeps_the_column(rt: HostRuntime) {
    let mut sheet = Sheet::new();
    let mut prices = [BEFORE; LINKS];
    assert_eq!(rt; told(sheet.open(5)), (0, 0, 0));
    assert_eq!(rt;
        told(sheet.add(
            &mut prices,
            1,
            Link { tail: 3, head: 4 },
            Cents { cents: 9 }
        )),
        (0, 0, 0)
    );
    assert_eq!(rt;
        told(sheet.add(
            &mut prices,
            7,
            Link { tail: 3, head: 4 },
            Cents { cents: 8 }
        )),
        (0, 0, 0)
    );
    assert_eq!(rt; told(load(&mut sheet, &mut prices, &SAMPLE)), (0, 0, 0));
    assert!(rt; is_sample(&sheet) && prices[7] == Cents { cents: 8 });
    prices[7] = BEFORE;
    assert!(rt; are_sample_prices(&prices));
}

/// Checks that a file is refused in this way, and leaves the sheet and the column of an earlier load.
fn is_kept_by(rt: &impl Abort, file: &[u8], why: (u8, u16, u8)) {
    let mut sheet = Sheet::new();
    let mut prices = [BEFORE; LINKS];
    assert_eq!(rt; told(load(&mut sheet, &mut prices, &SAMPLE)), (0, 0, 0));
    assert_eq!(rt; told(load(&mut sheet, &mut prices, file)), why);
    assert!(rt; is_sample(&sheet) && are_sample_prices(&prices));
}

#[test]
fn a_refused_load_changes_nothing(rt: HostRuntime) {
    // link 0 has another head and another price in these files
    is_kept_by(&rt, &changed(&[(22, 2), (23, 9), (34, 200)]), (34, 2, 11));
    is_kept_by(&rt, &changed(&[(22, 2), (23, 9), (34, 1)]), (34, 2, 12));
    is_kept_by(&rt, &changed(&[(22, 2), (23, 9), (36, 3)]), (34, 2, 13));
    is_kept_by(&rt, &changed(&[(22, 2), (23, 9), (35, 2)]), (34, 2, 14));
    is_kept_by(&rt, &changed(&[(22, 2), (23, 9), (40, 255)]), (34, 2, 15));
    is_kept_by(&rt, &changed(&[(22, 2), (23, 9), (42, 1)]), (35, 0, 19));
    is_kept_by(&rt, &changed(&[(0, 2), (22, 2), (23, 9)]), (31, 0, 0));
}

#[test]
fn without_a_tree_section_no_tree_is_installed(rt: HostRuntime) {
    let mut sheet = Sheet::new();
    let mut prices = [BEFORE; LINKS];
    assert_eq!(rt;
        told(load(&mut sheet, &mut prices, &changed(&[(16, 0)]))),
        (0, 0, 0)
    );
    assert!(rt; !sheet.has_tree() && has_link(&sheet, 2, 1, 2) && are_sample_prices(&prices));
}

#[test]
fn bytes_outside_the_sections_say_nothing(rt: HostRuntime) {
    let file = b"\x01\x03\x02\x00\
        \x17\x00\x00\x00\x15\x00\x00\x00\
        \x2e\x00\x00\x00\x02\x00\x00\x00\
        \x09\x09\x09\
        \x00\x00\x01\x05\x00\x00\x00\
        \x01\x00\x02\x04\x00\x00\x00\
        \x02\x01\x02\x06\x00\x00\x00\
        \x09\x09\
        \x00\x02\
        \x09\x09";
    let mut sheet = Sheet::new();
    let mut prices = [BEFORE; LINKS];
    assert_eq!(rt; told(load(&mut sheet, &mut prices, file)), (0, 0, 0));
    assert!(rt; is_sample(&sheet) && are_sample_prices(&prices));
}

#[test]
fn a_file_of_cents_and_minutes_loads(rt: HostRuntime) {
    let file = b"\x02\x03\x02\x00\
        \x14\x00\x00\x00\x16\x00\x00\x00\
        \x2a\x00\x00\x00\x02\x00\x00\x00\
        \x08\x00\x01\x05\x00\x00\x00\xfd\xff\xff\xff\
        \xc7\x01\x02\x00\x00\x00\x00\x07\x00\x00\x00\
        \x08\xc7";
    let mut sheet = Sheet::new();
    let mut prices = [both(1, 1); LINKS];
    assert_eq!(rt; told(load(&mut sheet, &mut prices, file)), (0, 0, 0));
    assert!(rt;
        has_link(&sheet, 8, 0, 1)
            && has_link(&sheet, 199, 1, 2)
            && sheet.in_tree(8)
            && sheet.in_tree(199)
    );
    assert_eq!(rt; prices[8], both(5, -3));
    assert_eq!(rt; prices[199], both(0, 7));
    assert_eq!(rt; prices[0], both(1, 1));
}

#[test]
fn minutes_below_zero_need_cents(rt: HostRuntime) {
    let file = b"\x02\x02\x02\x00\
        \x14\x00\x00\x00\x0b\x00\x00\x00\
        \x1f\x00\x00\x00\x00\x00\x00\x00\
        \x00\x00\x01\x00\x00\x00\x00\xff\xff\xff\xff";
    assert_eq!(rt; loading_minutes(file), (34, 0, 15));
}

#[test]
fn what_just_fits_loads(rt: HostRuntime) {
    // 20 bytes: two stations and nothing else
    let file = b"\x01\x02\x02\x00\
        \x14\x00\x00\x00\x00\x00\x00\x00\
        \x14\x00\x00\x00\x00\x00\x00\x00";
    assert_eq!(rt; loading_cents(file), (0, 0, 0));
    // 40 stations, number 199, a price of 100,000
    assert_eq!(rt; loading_changed(&[(1, 40), (16, 0)]), (0, 0, 0));
    assert_eq!(rt; loading_changed(&[(27, 199)]), (0, 0, 0));
    assert_eq!(rt;
        loading_changed(&[(37, 0xa0), (38, 0x86), (39, 1)]),
        (0, 0, 0)
    );
}
