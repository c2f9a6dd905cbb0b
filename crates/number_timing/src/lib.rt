// Long runs of reads and writes for measuring from Rust, over the library as its callers see it.
#![tactic(auto)]

// The sum of the numbers at the front of the input, up to its end or the first refusal.
#[tactic(auto, using(number::proofs::Reading::number_after, number::proofs::Reading::number_within), unfolding(number::specs::Answers::decoded))]
pub fn number_timing_read(input: &[u8]) -> u64 {
    let mut sum: u64 = 0;
    let mut place = 0;
    // The next place is what `decode` tells, so there is nothing for a `for` to go over.
    while let Ok((value, next)) = number::decode(input, place) {
        sum = sum.wrapping_add(u64::from(value));
        place = next;
    }
    sum
}

// Writes the numbers one after the other, and answers the place after the last that had room.
pub fn number_timing_write(values: &[u32], buffer: &mut [u8]) -> usize {
    let mut place = 0;
    for value in values {
        let Ok(next) = number::encode(buffer, place, *value) else {
            break;
        };
        place = next;
    }
    place
}
