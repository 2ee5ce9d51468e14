// Cases of tables: each row's value tells which of the rows given it is.
use crate::caller::{DIRTY, tabulate};
use crate::named::Named;
use crate::reader::{Refused, read};
use table::fill::Fill;
use table::kind::{Numbers, Texts};
use table::row::Row;

fn number(number: u32, value_at: u32) -> Row {
    Row {
        number,
        value_at,
        value_len: 1,
        ..Row::BLANK
    }
}

fn text(key_at: u32, key_len: u32, value_at: u32) -> Row {
    Row {
        number: 1,
        key_at,
        key_len,
        value_at,
        value_len: 1,
    }
}

#[test]
fn later_of_equal_keys_stands(rt: HostRuntime) {
    let given = [number(5, 0), number(2, 1), number(5, 2), number(2, 3)];
    let mut rows = [DIRTY; 3];
    assert_eq!(rt; tabulate(&Numbers, &mut rows, &given), Some(2));
    assert_eq!(rt; rows, [number(2, 3), number(5, 2), Row::BLANK]);
}

#[test]
fn beginning_comes_before_extension(rt: HostRuntime) {
    let section = b"abc\x7F\x80\xFF";
    let given = [
        text(5, 1, 0),
        text(0, 3, 1),
        text(4, 1, 2),
        text(0, 2, 3),
        text(3, 1, 4),
        text(0, 0, 5),
    ];
    let mut rows = [DIRTY; 6];
    assert_eq!(rt; tabulate(&Texts { section }, &mut rows, &given), Some(6));
    assert_eq!(rt;
        rows,
        [
            text(0, 0, 5),
            text(0, 2, 3),
            text(0, 3, 1),
            text(3, 1, 4),
            text(4, 1, 2),
            text(5, 1, 0),
        ]
    );
}

#[test]
fn no_rows_at_all(rt: HostRuntime) {
    let mut rows = [DIRTY; 0];
    assert_eq!(rt; tabulate(&Numbers, &mut rows, &[]), Some(0));
    assert_eq!(rt; tabulate(&Numbers, &mut rows, &[number(1, 0)]), None);
}

#[test]
fn as_many_rows_as_keys_and_one_too_few(rt: HostRuntime) {
    let mut rows = [DIRTY; 2];
    assert_eq!(rt;
        tabulate(
            &Numbers,
            &mut rows,
            &[number(3, 0), number(1, 1), number(3, 2)],
        ),
        Some(2)
    );
    assert_eq!(rt; rows[1], number(3, 2));
    assert_eq!(rt;
        tabulate(
            &Numbers,
            &mut rows,
            &[number(3, 0), number(1, 1), number(2, 2), number(1, 3)],
        ),
        None
    );
    assert_eq!(rt; rows, [Row::BLANK; 2]);
}

#[test]
fn rows_used_again(rt: HostRuntime) {
    let section = b"vmlinux";
    let mut rows = [DIRTY; 3];
    assert_eq!(rt;
        tabulate(
            &Numbers,
            &mut rows,
            &[number(1, 0), number(2, 1), number(3, 2)],
        ),
        Some(3)
    );
    assert_eq!(rt;
        tabulate(
            &Named { section },
            &mut rows,
            &[text(0, 2, 0), number(0, 1)],
        ),
        Some(2)
    );
    assert_eq!(rt; rows, [number(0, 1), text(0, 2, 0), Row::BLANK]);
    assert_eq!(rt; rows[1].key(section).len(), 2);
    assert!(rt; DIRTY.value(section).is_empty());
}

#[test]
fn fault_comes_before_too_few_rows(rt: HostRuntime) {
    let mut rows = [DIRTY; 2];
    assert_eq!(rt; read(&mut rows, &[9, 4, 9]), Ok(2));
    assert_eq!(rt; rows.map(|row| row.number), [4, 9]);
    assert_eq!(rt; read(&mut rows, &[3, 2, 1, 2]), Err(Refused::TooFewRows));
    assert_eq!(rt; rows[1], Row::BLANK);
    assert_eq!(rt;
        read(&mut rows, &[3, 2, 1, 255, 255]),
        Err(Refused::Fault { at: 3 })
    );
    assert_eq!(rt; rows[0], Row::BLANK);
}

#[test]
fn goes_on_with_rows_that_are_kept(rt: HostRuntime) {
    let mut rows = [DIRTY; 2];
    let one = Fill::start(&mut rows).add(&Numbers, &mut rows, number(5, 0));
    assert_eq!(rt; one, Fill::Used(1));
    let two = one.add(&Numbers, &mut rows, number(2, 1));
    assert_eq!(rt; two.finish(), Some(2));
    assert_eq!(rt; rows, [number(2, 1), number(5, 0)]);
    let over = two.add(&Numbers, &mut rows, number(3, 2));
    assert_eq!(rt; over.add(&Numbers, &mut rows, number(3, 3)), Fill::Over);
    assert_eq!(rt; over.finish(), None);
    assert_eq!(rt; rows, [Row::BLANK; 2]);
}
