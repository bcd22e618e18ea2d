// Laws of objects.
ghost use Rattle.object_fold.specs.Laws as law;

/// Objects whose strings a book holds stay so while the book grows.
pub fn objects_stay_known()
    ensures { law.ObjectsStayKnown }
{}

/// No more versions are made than requests were executed.
pub fn versions_are_few()
    ensures { law.VersionsAreFew }
{}

/// A book that knows the objects after a request holds the strings of the version that the request
/// made.
pub fn made_strings_are_held()
    ensures { law.MadeStringsAreHeld }
{}
