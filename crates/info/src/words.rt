// Kinds, byte orders and facts of a fixed length, in words.
use fixed_facts::feature_sections::{
    ClockData, ClockFrequency, CompressionInfo, NrCpus, SampleTimeRange, TotalMem,
};
use image::kinds::Kind;
use std::fmt;
use wire::order::ByteOrder;

// What a value is printed as.
#[derive(Clone, Copy)]
pub struct InWords<T>(pub T);

impl fmt::Display for InWords<Kind> {
    ghost use Rattle.std.specs.Prelude.{Some};
    ghost use Rattle.info.specs.Words.{kind_words};

    ghost output = { λ w. Some (kind_words w.0) };

    ghost styled_output = { λ w _. Some (kind_words w.0) };

    fn fmt<W: fmt::Write>(&self, f: &mut fmt::Formatter<W>) -> fmt::Result {
        f.write_str(match self.0 {
            Kind::File => "file image",
            Kind::Pipe => "pipe image",
            Kind::Head => "head image",
        })
    }
}

impl fmt::Display for InWords<ByteOrder> {
    ghost use Rattle.std.specs.Prelude.{Some};
    ghost use Rattle.info.specs.Words.{order_words};

    ghost output = { λ w. Some (order_words w.0) };

    fn fmt<W: fmt::Write>(&self, f: &mut fmt::Formatter<W>) -> fmt::Result {
        write!(f, "{}-endian", self.0)
    }
}

impl fmt::Display for InWords<NrCpus> {
    ghost use Rattle.std.specs.Prelude.{Some};
    ghost use Rattle.info.specs.Words.{nr_cpus_words};

    ghost output = { λ w. Some (nr_cpus_words w.0) };

    fn fmt<W: fmt::Write>(&self, f: &mut fmt::Formatter<W>) -> fmt::Result {
        write!(
            f,
            "{} online, {} available",
            self.0.nr_cpus_online, self.0.nr_cpus_available
        )
    }
}

impl fmt::Display for InWords<TotalMem> {
    ghost use Rattle.std.specs.Prelude.{Some};
    ghost use Rattle.info.specs.Words.{total_mem_words};

    ghost output = { λ w. Some (total_mem_words w.0) };

    fn fmt<W: fmt::Write>(&self, f: &mut fmt::Formatter<W>) -> fmt::Result {
        write!(f, "{} kB", self.0.kilobytes)
    }
}

impl fmt::Display for InWords<SampleTimeRange> {
    ghost use Rattle.std.specs.Prelude.{Some};
    ghost use Rattle.info.specs.Words.{sample_time_words};

    ghost output = { λ w. Some (sample_time_words w.0) };

    fn fmt<W: fmt::Write>(&self, f: &mut fmt::Formatter<W>) -> fmt::Result {
        write!(
            f,
            "{} ns to {} ns",
            self.0.first_sample_time, self.0.last_sample_time
        )
    }
}

impl fmt::Display for InWords<ClockFrequency> {
    ghost use Rattle.std.specs.Prelude.{Some};
    ghost use Rattle.info.specs.Words.{clock_frequency_words};

    ghost output = { λ w. Some (clock_frequency_words w.0) };

    fn fmt<W: fmt::Write>(&self, f: &mut fmt::Formatter<W>) -> fmt::Result {
        write!(f, "{} ns per tick", self.0.ns_per_tick)
    }
}

impl fmt::Display for InWords<CompressionInfo> {
    ghost use Rattle.std.specs.Prelude.{Some};
    ghost use Rattle.info.specs.Words.{compression_words};

    ghost output = { λ w. Some (compression_words w.0) };

    fn fmt<W: fmt::Write>(&self, f: &mut fmt::Formatter<W>) -> fmt::Result {
        write!(
            f,
            "version {}, type {}, level {}, ratio {}, mmap length {}",
            self.0.version, self.0.type_, self.0.level, self.0.ratio, self.0.mmap_len
        )
    }
}

impl fmt::Display for InWords<ClockData> {
    ghost use Rattle.std.specs.Prelude.{Some};
    ghost use Rattle.info.specs.Words.{clock_data_words};

    ghost output = { λ w. Some (clock_data_words w.0) };

    fn fmt<W: fmt::Write>(&self, f: &mut fmt::Formatter<W>) -> fmt::Result {
        write!(
            f,
            "clock {} at {} ns, wall clock at {} ns",
            self.0.clockid, self.0.clockid_time_ns, self.0.wall_clock_ns
        )
    }
}
