//! Of several faults the one told is the one that is looked for first.
use crate::files::{changed, loading_cents, loading_changed, told};
use amount::cents::Cents;
use sheet::Sheet;
use sheet_file::load::load;

#[test]
fn head_and_sections(rt: HostRuntime) {
    let short = changed(&[(0, 2)]);
    assert_eq!(rt;
        told(load(
            &mut Sheet::new(),
            &mut [Cents::default(); 199],
            &short[0..19],
        )),
        (1, 0, 0)
    );
    assert_eq!(rt; loading_cents(&short[0..19]), (30, 0, 0));
    assert_eq!(rt; loading_changed(&[(0, 2), (1, 1)]), (31, 0, 0));
    assert_eq!(rt; loading_changed(&[(1, 1), (4, 19)]), (10, 0, 0));
    assert_eq!(rt; loading_changed(&[(4, 19), (16, 1)]), (32, 0, 0));
    assert_eq!(rt; loading_changed(&[(16, 1), (20, 200)]), (33, 0, 0));
}

#[test]
fn records_and_tree(rt: HostRuntime) {
    assert_eq!(rt;
        loading_changed(&[(34, 200), (42, 3)]),
        (34, 2, 11),
        "records before the tree"
    );
    assert_eq!(rt;
        loading_changed(&[(27, 200), (34, 200)]),
        (34, 1, 11),
        "the first bad record"
    );
    assert_eq!(rt;
        loading_changed(&[(34, 200), (35, 3), (36, 3), (40, 255)]),
        (34, 2, 11)
    );
    assert_eq!(rt;
        loading_changed(&[(34, 0), (35, 3), (36, 3), (40, 255)]),
        (34, 2, 12)
    );
    assert_eq!(rt;
        loading_changed(&[(35, 3), (36, 3), (40, 255)]),
        (34, 2, 13)
    );
    assert_eq!(rt; loading_changed(&[(35, 2), (40, 255)]), (34, 2, 14));
    assert_eq!(rt; loading_changed(&[(41, 3), (42, 3)]), (35, 0, 16));
}
