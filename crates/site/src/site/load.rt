//! Loading a site file.
ghost use Rattle.std.specs.Prelude.{◌≡◌};
ghost use Rattle.site_read.specs.Sites.{file_tables, site};
ghost use Rattle.loops.specs.Loading.{Holds};
ghost use Rattle.site.specs.Loaded.{site_places, RegionLoopsRead, Loaded, Accepted, FileIsRead, FaultIsTold, leaving};

use crate::site::Site;
use loops::load_fault::LoadFault;
use loops::place::Place;
use site_read::field::RecordReader;
use site_read::records::read_records;
use std::alloc::Global;
use traffic::pair::Pair;

impl Site {
    // The site that the records of a file hold.
    // Apart from read, so that its six exits speak of the records, and read brings the one result to the file.
    fn from_records(heap: Global, file: &[u8]) -> Result<Site, LoadFault>
        ensures { Holds site_places RegionLoopsRead (file_tables file.now) result }
    {
        let size = file.len();
        let found = read_records(file)?;
        // Four lines and no array: the definition names the four places, and a loop's invariant would have to say of each again.
        let first = Place::load(heap, RecordReader { place: 1, size }, found.first)?;
        let second = Place::load(heap, RecordReader { place: 2, size }, found.second)?;
        let third = Place::load(heap, RecordReader { place: 3, size }, found.third)?;
        let fourth = Place::load(heap, RecordReader { place: 4, size }, found.fourth)?;
        let left = Pair {
            left: first,
            right: second,
        };
        let right = Pair {
            left: third,
            right: fourth,
        };
        Ok(Site {
            joined: Pair { left, right },
        })
    }

    /// The site of a file. A file is accepted exactly when it is the file of a lawful site. Memory is wanted only for the
    /// region loops of an accepted file.
    pub fn read(heap: Global, file: &[u8]) -> Result<Site, LoadFault>
        ensures read { Holds site_places RegionLoopsRead (site file.now) result }
        ensures accepted { Accepted file.now result }
        ensures file { FileIsRead file.now result }
        ensures fault { FaultIsTold file.now result }
    {
        Site::from_records(heap, file)
    }

    /// Takes the file's tables, and empties the places that it does not fill. A fault of the file, or want of memory,
    /// leaves the site as it was. A file is accepted exactly when it is the file of a lawful site. Memory is wanted only for
    /// the region loops of an accepted file.
    pub fn load(&mut self, heap: Global, file: &[u8]) -> Result<(), LoadFault>
        ensures loaded { Loaded (site file.now) self.old self.new result }
        ensures accepted { Accepted file.now (leaving self.new result) }
        ensures file { FileIsRead file.now (leaving self.new result) }
        ensures fault { FaultIsTold file.now (leaving self.new result) }
    {
        let site = Site::read(heap, file)?;
        *self = site;
        Ok(())
    }
}
