// After header/mod.rs: the header record as structs, with the Rust's names (01, 'Numbers the loader gives'). A string is a part of the file, counted from its
// first byte, without quotes. A list is an array as long as its limit, and a count; what stands past the count, and a value that is marked absent, is zero in
// a record that an opening made. Contracts speak of the record in this form; the code has it in words (`head_words`).
#![tactic(auto)]

use text_parts::Span;

// Bytes of the data section: the first, and the last, which belongs to it.
#[repr(C)]
#[derive(Clone, Copy)]
pub struct Range {
    pub from: u64,
    pub to: u64,
}

#[repr(C)]
#[derive(Clone, Copy)]
pub struct Global {
    pub hts_voice_version: Span,
    pub sampling_frequency: u64,
    pub frame_period: u64,
    pub num_states: u64,
    pub num_streams: u64,
    pub stream_type: [Span; 8],
    pub stream_type_count: usize,
    pub fullcontext_format: Span,
    pub fullcontext_version: Span,
    pub gv_off_context: [Span; 32],
    pub gv_off_context_count: usize,
    pub comment: Span,
    pub has_comment: bool,
}

#[repr(C)]
#[derive(Clone, Copy)]
pub struct StreamData {
    // the group's name, in its first key
    pub name: Span,
    pub vector_length: u64,
    pub num_windows: u64,
    pub is_msd: bool,
    pub use_gv: bool,
    pub option: [Span; 16],
    pub option_count: usize,
}

#[repr(C)]
#[derive(Clone, Copy)]
pub struct PositionData {
    // the group's name, in its first key
    pub name: Span,
    pub stream_win: [Range; 8],
    pub stream_win_count: usize,
    pub stream_pdf: Range,
    pub stream_tree: Range,
    pub gv_pdf: Range,
    pub has_gv_pdf: bool,
    pub gv_tree: Range,
    pub has_gv_tree: bool,
}

// What an opened file says. The groups of a section stand in the order of their first appearance.
#[repr(C)]
#[derive(Clone, Copy)]
pub struct Header {
    pub global: Global,
    pub streams: [StreamData; 8],
    pub stream_count: usize,
    pub duration_pdf: Range,
    pub duration_tree: Range,
    pub positions: [PositionData; 8],
    pub position_count: usize,
    pub data_start: usize,
    pub data_len: usize,
}
