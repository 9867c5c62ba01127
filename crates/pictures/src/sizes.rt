// The picture of runs of a program at several sizes: time and work against the size.
pub(crate) mod frame;
pub(crate) mod labels;
pub(crate) mod line;
pub(crate) mod marks;
pub(crate) mod measure;
pub(crate) mod panel;
pub(crate) mod picture;
pub(crate) mod picture_laws;
pub(crate) mod shapes;
pub(crate) mod titles;
