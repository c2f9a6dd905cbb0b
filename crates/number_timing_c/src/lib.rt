// The timing entries of `number_timing`, for C and Rust.
#![tactic(auto)]

#[unsafe(no_mangle)]
pub extern "C" fn number_timing_read(input: &[u8]) -> u64 {
    number_timing::number_timing_read(input)
}

#[unsafe(no_mangle)]
pub extern "C" fn number_timing_write(values: &[u32], buffer: &mut [u8]) -> usize {
    number_timing::number_timing_write(values, buffer)
}
