// Prints the records of three axes: M12 of document 01, its slip about negative spare sizes, and a template that is used after zero repetitions.

#![tactic(auto)]

use sizing::Sizing;
use std::io;
use std::io::Write;
use template_rules::{SizeTables, Template};
use track_counts::TrackCounts;
use track_record::LentTracks;
use track_rules::{AxisTracks, GridTrack, GridTrackKind, MOST_RECORDS, TrackSource};

// The letter of a source.
fn letter(source: TrackSource) -> char {
    match source {
        TrackSource::Negative => 'n',
        TrackSource::Template => 't',
        TrackSource::Automatic => 'a',
        TrackSource::Area => 'g',
        TrackSource::Positive => 'p',
        TrackSource::Gutter => '-',
    }
}

// A record on its line: its kind, whether it is collapsed, the kind of its minimum, and its source.
fn print_record<W: Write>(out: &mut W, track: GridTrack) -> io::Result<()> {
    let kind = match track.kind {
        GridTrackKind::Track => "track",
        GridTrackKind::Gutter => "gutter",
    };
    let collapsed = if track.collapsed { 'y' } else { 'n' };
    let size = u32::from(track.size.min.kind());
    let source = letter(track.source);
    writeln!(out, "{kind}\t{collapsed}\t{size}\t{source}")
}

// The records that the call counts.
fn print_records<W: Write>(out: &mut W, records: &[GridTrack], count: usize) -> io::Result<()> {
    for record in records.iter().take(count) {
        print_record(out, *record)?;
    }
    Ok(())
}

// Tracks of one size at both ends.
fn both_ends(words: &[u64]) -> SizeTables {
    SizeTables {
        minimums: words,
        maximums: words,
    }
}

// The records of an axis.
fn show<W: Write>(out: &mut W, lent: LentTracks, axis: AxisTracks) -> io::Result<()> {
    let count = track_run::state::fill_count(MOST_RECORDS, lent.items.len(), axis);
    let records = track_run::lender::axis_records(lent, axis);
    writeln!(out, "records\t{count}")?;
    print_records(out, &records, count)
}

// An axis without a gap.
fn axis_of(negative: u16, explicit: u16, positive: u16, repetitions: u32) -> AxisTracks {
    let counts = TrackCounts {
        negative_implicit: negative,
        explicit,
        positive_implicit: positive,
    };
    AxisTracks {
        counts,
        repetitions,
        gap: Sizing::Length(0.0),
    }
}

fn main(rt: HostRuntime) -> io::Result<()> {
    let mut out = rt.stdout();
    // auto, min-content, max-content
    let spares = [0x3_0000_0000u64, 0x4_0000_0000, 0x5_0000_0000];
    // a fit of the first track; a single of the third, and a fill of the second
    let fit = [0x1_0000_0003_0000u64];
    let mixed = [0x2_0000_0000u64, 0x1_0001_0002_0000];
    let items = [0u8, 1, 0, 0];
    let sizes = both_ends(&spares);
    let alone = LentTracks {
        template: Template {
            components: &fit,
            sizes,
        },
        spares: sizes,
        items: &items,
    };
    let after = LentTracks {
        template: Template {
            components: &mixed,
            sizes,
        },
        spares: sizes,
        items: &items,
    };
    show(&mut out, alone, axis_of(0, 3, 0, 3))?;
    show(&mut out, alone, axis_of(2, 0, 0, 0))?;
    show(&mut out, after, axis_of(0, 3, 1, 0))
}
