// What the job reader turns away, case by case: the cause and the byte that each fault names.
#![tactic(auto)]

#[cfg(test)]
mod tests {
    use fault::cause::{Cause, Fault};
    use job::job::Job;
    use std::process::Abort;
    use std::test::Fail;

    const TWO_SLEDS: &[u8; 39] =
        b"H\0\x01\x02N\0\x01\x03F\0\x05\x03\x01...R\0\x07\x01\x01\0\0\0\x02\0R\0\x07\x01\x01\0\x02\0\0\0E\0\0";

    // Fields after a horizon of 1, a limit of 1 and a floor of one free cell; they begin at byte 14.
    macro_rules! after_floor {
        ($fields:literal) => {
            concat!("H\0\x01\x01N\0\x01\x01F\0\x03\x01\x01.", $fields)
        };
    }

    // What the reader says of a file.
    fn told(file: &[u8]) -> Result<(), Fault> {
        let mut job = Job::new();
        job.read(file)
    }

    fn is_read(rt: &impl Abort, file: &str) {
        assert_eq!(rt; told(file.as_bytes()), Ok(()));
    }

    fn is_refused(rt: &impl Abort, file: &str, cause: Cause, at: usize) {
        assert_eq!(rt; told(file.as_bytes()), Err(cause.at(at)));
    }

    // The first byte of the field of the file of two sleds that a byte belongs to.
    fn field_of(byte: usize) -> usize {
        match byte {
            0..=3 => 0,
            4..=7 => 4,
            8..=15 => 8,
            16..=25 => 16,
            26..=35 => 26,
            _ => 36,
        }
    }

    #[test]
    fn a_cut_file_ends_inside_the_field_that_is_cut(rt: HostRuntime) {
        let file: &[u8] = TWO_SLEDS;
        for cut in 0..39 {
            let fault = Cause::EndsInsideField.at(field_of(cut));
            assert_eq!(rt; told(&file[0..cut]), Err(fault));
        }
        assert_eq!(rt; told(file), Ok(()));
    }

    #[test]
    fn headers_are_checked_in_order(rt: HostRuntime) {
        is_refused(&rt, "X\0", Cause::EndsInsideField, 0);
        is_refused(&rt, "N\0\x01\x01", Cause::TagNotDue, 0);
        is_refused(&rt, "H\x01\x01\x01", Cause::WrongLength, 0);
        is_refused(&rt, "H\0\x01", Cause::EndsInsideField, 0);
        is_refused(&rt, "H\0\x01\x40", Cause::ValueOutsideLimits, 0);
        is_refused(&rt, "H\0\x01\x01N\0\x01\0", Cause::ValueOutsideLimits, 4);
        is_refused(&rt, "H\0\x01\x01N\0\x01\x01E\0\0", Cause::TagNotDue, 8);
    }

    #[test]
    fn a_floor_is_checked_in_order(rt: HostRuntime) {
        is_refused(
            &rt,
            "H\0\x01\x01N\0\x01\x01F\0\x01\x01",
            Cause::WrongLength,
            8,
        );
        is_refused(
            &rt,
            "H\0\x01\x01N\0\x01\x01F\x7f\x7f\0\0",
            Cause::EndsInsideField,
            8,
        );
        is_refused(
            &rt,
            "H\0\x01\x01N\0\x01\x01F\0\x02\x11\x01",
            Cause::ValueOutsideLimits,
            8,
        );
        is_refused(
            &rt,
            "H\0\x01\x01N\0\x01\x01F\0\x03\x02\x01.",
            Cause::WrongLength,
            8,
        );
        is_refused(
            &rt,
            "H\0\x01\x01N\0\x01\x01F\0\x04\x02\x01.x",
            Cause::ValueOutsideLimits,
            8,
        );
    }

    #[test]
    fn the_values_of_a_sled_have_limits(rt: HostRuntime) -> Result<(), Fail> {
        let value = Cause::ValueOutsideLimits;
        is_refused(&rt, after_floor!("R\0\x07\x09\x01\0\0\0\0\0"), value, 14);
        is_refused(&rt, after_floor!("R\0\x07\x01\0\0\0\0\0\0"), value, 14);
        is_refused(&rt, after_floor!("R\0\x07\x01\x01\x04\0\0\0\0"), value, 14);
        is_refused(&rt, after_floor!("R\0\x07\x01\x01\0\0\0\x01\0"), value, 14);
        is_refused(
            &rt,
            after_floor!("D\0\x0d\0\0\0\0\0\0\0\0\0\0\0\0\0"),
            value,
            14,
        );
        Ok(())
    }

    #[test]
    fn a_skirt_takes_no_offset_beyond_seven(rt: HostRuntime) -> Result<(), Fail> {
        let skirt = Cause::OffsetTooFar;
        is_refused(&rt, after_floor!("R\0\x07\x08\x01\x01\0\0\0\0"), skirt, 14);
        is_refused(
            &rt,
            after_floor!("D\0\x0d\x01\0\0\0\0\0\0\0\x01\0\0\0\0"),
            skirt,
            14,
        );
        is_refused(
            &rt,
            after_floor!("R\0\x07\x08\x01\x01\0\x09\0\0"),
            Cause::ValueOutsideLimits,
            14,
        );
        is_read(&rt, after_floor!("R\0\x07\x07\x01\x01\0\0\0\0E\0\0"));
        Ok(())
    }

    #[test]
    fn sleds_come_in_order_and_then_the_end(rt: HostRuntime) -> Result<(), Fail> {
        is_read(&rt, after_floor!("R\0\x07\x01\x01\0\0\0\0\0E\0\0"));
        is_refused(&rt, after_floor!("E\0\0"), Cause::SledCount, 14);
        is_refused(&rt, after_floor!("E\0\x01"), Cause::WrongLength, 14);
        is_refused(
            &rt,
            after_floor!("D\0\x0d\x40\0\0\0\0\0\0\0\0\0\0\0\0R\0\x07\x01\x01\0\0\0\0\0"),
            Cause::TagNotDue,
            30,
        );
        is_refused(
            &rt,
            after_floor!("R\0\x07\x01\x01\0\0\0\0\0E\0\0E"),
            Cause::BytesAfterEnd,
            27,
        );
        Ok(())
    }

    #[test]
    fn a_seventh_sled_is_refused(rt: HostRuntime) -> Result<(), Fail> {
        is_refused(
            &rt,
            after_floor!(
                "R\0\x07\x01\x01\0\0\0\0\0R\0\x07\x01\x01\0\0\0\0\0R\0\x07\x01\x01\0\0\0\0\0R\0\x07\x01\x01\0\0\0\0\0R\0\x07\x01\x01\0\0\0\0\0R\0\x07\x01\x01\0\0\0\0\0R\0\x07"
            ),
            Cause::SledCount,
            74,
        );
        is_refused(
            &rt,
            after_floor!(
                "R\0\x07\x01\x01\0\0\0\0\0R\0\x07\x01\x01\0\0\0\0\0R\0\x07\x01\x01\0\0\0\0\0R\0\x07\x01\x01\0\0\0\0\0R\0\x07\x01\x01\0\0\0\0\0R\0\x07\x01\x01\0\0\0\0\0D\0\x09"
            ),
            Cause::SledCount,
            74,
        );
        Ok(())
    }

    #[test]
    fn a_refusal_leaves_the_job_as_it_was(rt: HostRuntime) {
        let mut job = Job::new();
        assert_eq!(rt; job.read(TWO_SLEDS), Ok(()));
        assert_eq!(rt; job.read(b"H"), Err(Cause::EndsInsideField.at(0)));
        assert_eq!(rt; job.horizon(), 2);
        assert_eq!(rt; job.limit(), 3);
        assert_eq!(rt; job.sled_count(), 2);
    }
}
