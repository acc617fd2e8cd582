// Entries by their addresses, and addresses that are mentioned.
use cg_base::Place;
use cg_heaptext_entries::{Numeral, read_entries};
use cg_heaptext_index::{AddressFault, addresses};
use cg_heaptext_mentions::{Mentions, judge_mentions};
use std::test::Fail;

const FILE: &str = "@05 = {x = @7, y = @18446744073709551621}
@18446744073709551621 = [1, 2]
@7 = {x = 05}
arg = (@5, @ 6)
";

const REPEATED: &str = "@5 = [1]\n@05 = [2]\n@7 = <>\n@007 = <>\narg = 1\n";

/// The line of a place.
fn line(place: Option<Place>) -> u32 {
    match place {
        Some(place) => place.line,
        None => 0,
    }
}

#[test]
fn entries_are_found_by_their_addresses(rt: HostRuntime) -> Result<(), Fail> {
    let place = Place { line: 1, column: 1 };
    match read_entries(rt.alloc(), FILE.as_bytes()) {
        Ok(index) => match addresses(rt.alloc(), &index) {
            Ok(addresses) => {
                assert!(rt;
                    addresses.find(&Numeral {
                        place,
                        digits: b"5"
                    }) == Some(0)
                );
                assert!(rt;
                    addresses.find(&Numeral {
                        place,
                        digits: b"0018446744073709551621"
                    }) == Some(1)
                );
                assert!(rt;
                    addresses
                        .find(&Numeral {
                            place,
                            digits: b"6"
                        })
                        .is_none()
                );
                let Mentions { absent, out } = judge_mentions(&index, &addresses);
                assert!(rt; line(absent) == 4);
                assert!(rt; line(out) == 1);
                Ok(())
            }
            Err(_) => panic!(rt; "an address stands twice"),
        },
        Err(_) => panic!(rt; "no heap file"),
    }
}

#[test]
fn addresses_stand_once(rt: HostRuntime) -> Result<(), Fail> {
    match read_entries(rt.alloc(), REPEATED.as_bytes()) {
        Ok(index) => match addresses(rt.alloc(), &index) {
            Err(AddressFault::Second(place)) => {
                assert!(rt; place == Place { line: 2, column: 1 });
                Ok(())
            }
            _ => panic!(rt; "no address stands twice"),
        },
        Err(_) => panic!(rt; "no heap file"),
    }
}
