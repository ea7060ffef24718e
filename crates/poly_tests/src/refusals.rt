//! The number and the name of each refusal, the texts of two of them, and the refusal that an allocation error becomes.

use poly_grid::Refusal;
use std::alloc::AllocError;
use std::test::Fail;

#[test]
fn each_has_its_number_and_name(rt: HostRuntime) {
    for (refusal, code, name) in [
        (Refusal::BadJson, 1, "BadJson"),
        (Refusal::BadField, 2, "BadField"),
        (Refusal::BadFormat, 3, "BadFormat"),
        (Refusal::BadGrid, 4, "BadGrid"),
        (Refusal::BadBoard, 5, "BadBoard"),
        (Refusal::BadName, 6, "BadName"),
        (Refusal::BadShape, 7, "BadShape"),
        (Refusal::NameTaken, 8, "NameTaken"),
        (Refusal::NoSuchPiece, 9, "NoSuchPiece"),
        (Refusal::BadCell, 10, "BadCell"),
        (Refusal::TooManyCells, 11, "TooManyCells"),
        (Refusal::TooManyPieces, 12, "TooManyPieces"),
        (Refusal::TooManyPlacements, 13, "TooManyPlacements"),
        (Refusal::NotAPlacement, 14, "NotAPlacement"),
        (Refusal::NoChange, 15, "NoChange"),
        (Refusal::NothingToUndo, 16, "NothingToUndo"),
        (Refusal::NothingToRedo, 17, "NothingToRedo"),
        (Refusal::CatalogueFull, 18, "CatalogueFull"),
        (Refusal::BadCommand, 19, "BadCommand"),
        (Refusal::LineTooLong, 20, "LineTooLong"),
        (Refusal::Unfinished, 21, "Unfinished"),
        (Refusal::Memory, 22, "Memory"),
        (Refusal::Gone, 23, "Gone"),
        (Refusal::DoesNotHold, 24, "DoesNotHold"),
        (Refusal::TooLarge, 25, "TooLarge"),
        (Refusal::Spent, 26, "Spent"),
        (Refusal::Unsettled { seen: 7, found: 5 }, 27, "Unsettled"),
        (Refusal::TooWide, 28, "TooWide"),
        (Refusal::Busy { pending: 3 }, 29, "Busy"),
    ] {
        assert_eq!(rt; refusal.code(), code);
        assert_eq!(rt; refusal.name(), name);
    }
}

#[test]
fn texts_say_the_cause(rt: HostRuntime) -> Result<(), Fail> {
    let busy = Refusal::Busy { pending: 3 };
    assert_eq!(rt;
        format!(in rt.alloc(); "{busy}")?.as_str(),
        "3 tasks are pending, so some tilings may not be listed yet."
    );
    assert_eq!(rt;
        format!(in rt.alloc(); "{}", Refusal::NoChange)?.as_str(),
        "The edit would change nothing."
    );
    Ok(())
}

#[test]
fn a_refused_growth_is_memory(rt: HostRuntime) {
    assert_eq!(rt; Refusal::from(AllocError), Refusal::Memory);
}
