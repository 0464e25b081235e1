// The bytes of a job, section after section.
ghost use Rattle.std.specs.Prelude.{◌≡◌, ◌≤◌, ◌*◌, length, take};
ghost use Rattle.whole.specs.Table.{each, over};
ghost use Rattle.image.specs.Joins.{joins_of};
ghost use Rattle.image.specs.Image.{join_bytes, section_bytes, job_bytes};
ghost use Rattle.image.specs.Writer.{listed, lent_job};
ghost use Rattle.writer.specs.Steps.{Room, Puts, length_with};

use crate::joining;
use crate::lists::CountedJob;
use crate::putting::Out;

impl CountedJob<'_> {
    // The length of its image.
    pub(super) fn image_length(&self) -> usize
        ensures { result ≡ length_with self.now.job.given self.now.joins }
    {
        let given = self.job.given;
        let n = given.values;
        12 + 4 * n
            + given.categories
            + 3 * self.joins
            + 8 * given.places
            + 4 * given.bands
            + given.shuffles * n
    }

    // The section of the joins.
    fn put_joins_section(&self, out: &mut Out)
        requires { Room out.old (section_bytes self.now.joins (each join_bytes (joins_of self.now.job.given.values
            (take (self.now.job.given.values * self.now.job.given.values) self.now.job.lists.weights.now)))) }
        ensures { Puts out.old (section_bytes self.now.joins (each join_bytes (joins_of self.now.job.given.values
            (take (self.now.job.given.values * self.now.job.given.values) self.now.job.lists.weights.now)))) out.new }
    {
        out.put_count(self.joins);
        joining::put_joins(out, &self.job.table());
    }

    // All six sections.
    fn put_sections(&self, out: &mut Out)
        requires { Room out.old (job_bytes self.now.job.given (lent_job self.now.job.given (listed self.now.job.lists))) }
        ensures { Puts out.old (job_bytes self.now.job.given (lent_job self.now.job.given (listed self.now.job.lists))) out.new }
    {
        let job = self.job;
        out.put_section(job.given.values, job.values());
        out.put_section(job.given.categories, job.categories());
        self.put_joins_section(out);
        out.put_section(job.given.places, job.places());
        out.put_section(job.given.bands, job.bands());
        out.put_section(job.given.shuffles, job.shuffles());
    }

    // The whole image, from the first byte of its room on.
    pub(super) fn store(&self, bytes: &mut [u8])
        requires { length (job_bytes self.now.job.given (lent_job self.now.job.given (listed self.now.job.lists))) ≤ length bytes.old }
        ensures { bytes.new ≡ over (job_bytes self.now.job.given (lent_job self.now.job.given (listed self.now.job.lists))) bytes.old }
    {
        self.put_sections(&mut Out { bytes, at: 0 });
    }
}
