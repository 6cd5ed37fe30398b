//! Whole projects, by the length of their texts and a sum over the bytes that was made apart from the program.

ghost use Rattle.std.specs.Prelude.{◌≤◌};

use std::alloc::{AllocError, Global};
use std::rt::HostRuntime;
use ul_gen::{document_of, project_of};

/// The length of the texts so far and a sum over their bytes.
#[derive(Clone, Copy, Debug, PartialEq, Eq)]
struct Sum {
    length: u64,
    bytes: u64,
}

impl Sum {
    fn with(self, text: &[u8]) -> Sum {
        let mut bytes = self.bytes;
        for byte in text {
            bytes = bytes.wrapping_mul(31).wrapping_add(*byte as u64) % 1_000_003;
        }
        Sum {
            length: self.length.wrapping_add(text.len() as u64),
            bytes,
        }
    }
}

const NONE: Sum = Sum {
    length: 0,
    bytes: 0,
};

fn sum_of_documents(alloc: Global, seed: u64, size: u64) -> Result<Sum, AllocError>
    requires { size ≤ 2000 }
{
    let mut sum = NONE;
    for number in 0..size {
        let text = document_of(alloc, seed, size, number)?;
        sum = sum.with(text.as_slice());
    }
    Ok(sum)
}

#[test]
fn the_largest_project_is_whole(rt: HostRuntime) -> Result<(), AllocError> {
    let project = project_of(rt.alloc(), 7, 2000)?;
    let sums = [
        NONE.with(project.as_slice()),
        sum_of_documents(rt.alloc(), 7, 2000)?,
    ];
    assert_eq!(rt;
        sums,
        [
            Sum {
                length: 4167,
                bytes: 424969
            },
            Sum {
                length: 495475,
                bytes: 639953
            }
        ]
    );
    Ok(())
}
