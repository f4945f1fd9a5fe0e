//! Every refusal of a load, with what it carries.
use crate::files::{
    FIRST, LAST, SAMPLE, TREE, loading_cents, loading_changed, loading_minutes, told,
};
use amount::cents::Cents;
use sheet::Sheet;
use sheet_file::load::load;
use std::test::Fail;

#[test]
fn a_column_of_another_size(rt: HostRuntime) {
    assert_eq!(rt;
        told(load(&mut Sheet::new(), &mut [Cents::default(); 199], &SAMPLE)),
        (1, 0, 0)
    );
    assert_eq!(rt;
        told(load(&mut Sheet::new(), &mut [Cents::default(); 201], &SAMPLE)),
        (1, 0, 0)
    );
}

#[test]
fn a_file_too_short_or_too_long(rt: HostRuntime) -> Result<(), Fail> {
    assert_eq!(rt; loading_cents(&SAMPLE[0..19]), (30, 0, 0));
    let mut file = SAMPLE.to_vec(rt.alloc())?;
    file.resize(4096, 9)?;
    assert_eq!(rt; loading_cents(&file), (0, 0, 0));
    file.push(9)?;
    assert_eq!(rt; loading_cents(&file), (30, 0, 0));
    Ok(())
}

#[test]
fn another_kind_or_pair_count(rt: HostRuntime) {
    assert_eq!(rt; loading_changed(&[(0, 2)]), (31, 0, 0));
    assert_eq!(rt; loading_minutes(&SAMPLE), (31, 0, 0));
    assert_eq!(rt; loading_changed(&[(2, 3)]), (31, 0, 0));
    assert_eq!(rt; loading_changed(&[(3, 1)]), (31, 0, 0));
}

#[test]
fn too_few_or_too_many_stations(rt: HostRuntime) {
    assert_eq!(rt; loading_changed(&[(1, 1)]), (10, 0, 0));
    assert_eq!(rt; loading_changed(&[(1, 41)]), (10, 0, 0));
}

#[test]
fn a_bad_pair(rt: HostRuntime) {
    assert_eq!(rt;
        loading_changed(&[(4, 19)]),
        (32, 0, 0),
        "records before byte 20"
    );
    assert_eq!(rt;
        loading_changed(&[(8, 28)]),
        (32, 0, 0),
        "records that end behind the file"
    );
    assert_eq!(rt;
        loading_changed(&[(12, 40)]),
        (32, 0, 0),
        "a tree before the end of the records"
    );
    assert_eq!(rt;
        loading_changed(&[(12, 42)]),
        (32, 0, 0),
        "a tree that ends behind the file"
    );
    assert_eq!(rt;
        loading_changed(&[(12, 0), (16, 0)]),
        (32, 0, 0),
        "an empty tree at byte 0"
    );
    assert_eq!(rt;
        loading_changed(&[(19, 255)]),
        (32, 0, 0),
        "a tree of some 4,278,190,082 bytes"
    );
}

#[test]
fn a_section_of_another_length(rt: HostRuntime) {
    assert_eq!(rt; loading_changed(&[(8, 20)]), (33, 0, 0));
    assert_eq!(rt; loading_changed(&[(16, 1)]), (33, 0, 0));
    assert_eq!(rt; loading_changed(&[(1, 4)]), (33, 0, 0));
}

#[test]
fn a_record_that_add_refuses(rt: HostRuntime) {
    assert_eq!(rt; loading_changed(&[(FIRST, 200)]), (34, 0, 11));
    assert_eq!(rt; loading_changed(&[(27, 0)]), (34, 1, 12));
    assert_eq!(rt; loading_changed(&[(FIRST + 1, 3)]), (34, 0, 13));
    assert_eq!(rt; loading_changed(&[(FIRST + 2, 3)]), (34, 0, 13));
    assert_eq!(rt; loading_changed(&[(FIRST + 1, 1)]), (34, 0, 14));
    assert_eq!(rt; loading_changed(&[(FIRST + 6, 255)]), (34, 0, 15));
}

#[test]
fn a_last_record_that_add_refuses(rt: HostRuntime) {
    assert_eq!(rt; loading_changed(&[(LAST, 200)]), (34, 2, 11));
    assert_eq!(rt; loading_changed(&[(LAST, 1)]), (34, 2, 12));
    assert_eq!(rt; loading_changed(&[(LAST + 2, 3)]), (34, 2, 13));
    assert_eq!(rt; loading_changed(&[(LAST + 1, 2)]), (34, 2, 14));
    assert_eq!(rt;
        loading_changed(&[(LAST + 3, 0xa1), (LAST + 4, 0x86), (LAST + 5, 1)]),
        (34, 2, 15)
    );
}

#[test]
fn a_tree_that_install_refuses(rt: HostRuntime) {
    assert_eq!(rt; loading_changed(&[(TREE + 1, 3)]), (35, 0, 16));
    assert_eq!(rt; loading_changed(&[(TREE + 1, 255)]), (35, 0, 16));
    assert_eq!(rt; loading_changed(&[(TREE, 1)]), (35, 0, 19));
    assert_eq!(rt; loading_changed(&[(TREE + 1, 0)]), (35, 0, 19));
}
