//! The page's text after its data: the one with `page/picture.js`. `.ci/explore_page.py --write` writes it.

/// The page's text after its data: the one with `page/picture.js`.
pub(crate) const PICTURE: &[u8] = b"\
    <script>\n\
    \"use strict\";\n\
    // What is shown of the run as a file: a picture (PNG), or a drawing of lines and texts (SVG). Both are drawn\
    \x20by the\n\
    // functions that draw on the page, with the names of the lanes beside.\n\
    \n\
    const SVG = \"http://www.w3.org/2000/svg\";\n\
    const END = \"<\" + \"/svg>\\n\";   // together it would end the script that it stands in, for a careless rea\
    der\n\
    const NAMES_WIDTH = 220;   // at most, and what is longer is cut\n\
    const ENTITIES = { \"&\": \"&amp;\", \"<\": \"&lt;\", \">\": \"&gt;\", \"\\\"\": \"&quot;\", \"'\": \"&#39;\"\
    \x20};\n\
    // How far below the height that a text is given for its line stands, in parts of its size.\n\
    const BASELINES = { top: 0.85, middle: 0.35, bottom: -0.2, alphabetic: 0 };\n\
    const ANCHORS = { left: \"start\", center: \"middle\", right: \"end\" };\n\
    \n\
    // A text as it stands in an SVG file. What no XML may hold becomes a question mark.\n\
    function escaped(text) {\n\
    \x20 return String(text).replace(/[^\\t\\n\\r\\u0020-\\ud7ff\\ue000-\\ufffd\\u{10000}-\\u{10ffff}]/gu, \"?\")\
    \n\
    \x20   .replace(/[&<>\"']/g, (sign) => ENTITIES[sign]);\n\
    }\n\
    \n\
    function rounded(number) {\n\
    \x20 return String(Math.round(number * 100) / 100);\n\
    }\n\
    \n\
    // A colour and how opaque it is: not every program knows colours of eight digits.\n\
    function paintOf(kind, colour) {\n\
    \x20 const [, plain, alpha] = /^(#[0-9a-f]{6})([0-9a-f]{2})$/i.exec(colour) ?? [];\n\
    \x20 if (plain === undefined) return ` ${kind}=\"${escaped(colour)}\"`;\n\
    \x20 return ` ${kind}=\"${plain}\" ${kind}-opacity=\"${rounded(parseInt(alpha, 16) / 255)}\"`;\n\
    }\n\
    \n\
    // What the drawing functions ask of a canvas, written as the elements of an SVG.\n\
    class SvgContext {\n\
    \x20 constructor(palette) {\n\
    \x20   this.palette = palette;\n\
    \x20   this.parts = [];\n\
    \x20   this.path = \"\";\n\
    \x20   this.open = [0];\n\
    \x20   this.clips = 0;\n\
    \x20   this.dash = [];\n\
    \x20   this.measure = document.createElement(\"canvas\").getContext(\"2d\");\n\
    \x20   Object.assign(this, { fillStyle: \"#000\", strokeStyle: \"#000\", lineWidth: 1, lineCap: \"butt\", lin\
    eJoin: \"miter\",\n\
    \x20                         globalAlpha: 1, font: \"10px sans-serif\", textAlign: \"left\", textBaseline: \"\
    alphabetic\" });\n\
    \x20 }\n\
    \n\
    \x20 add(text) {\n\
    \x20   this.parts.push(text);\n\
    \x20 }\n\
    \n\
    \x20 begin(attributes) {\n\
    \x20   this.open[this.open.length - 1]++;\n\
    \x20   this.add(\"<g\" + attributes + \">\");\n\
    \x20 }\n\
    \n\
    \x20 save() {\n\
    \x20   this.open.push(0);\n\
    \x20 }\n\
    \n\
    \x20 restore() {\n\
    \x20   this.add(\"</g>\".repeat(this.open.pop()));\n\
    \x20 }\n\
    \n\
    \x20 translate(x, y) {\n\
    \x20   this.begin(` transform=\"translate(${rounded(x)} ${rounded(y)})\"`);\n\
    \x20 }\n\
    \n\
    \x20 // Clips to the path, which is made of rectangles.\n\
    \x20 clip() {\n\
    \x20   const id = \"clip\" + this.clips++;\n\
    \x20   this.add(`<clipPath id=\"${id}\"><path d=\"${this.path}\"/></clipPath>`);\n\
    \x20   this.begin(` clip-path=\"url(#${id})\"`);\n\
    \x20 }\n\
    \n\
    \x20 beginPath() {\n\
    \x20   this.path = \"\";\n\
    \x20 }\n\
    \n\
    \x20 moveTo(x, y) {\n\
    \x20   this.path += \"M\" + rounded(x) + \" \" + rounded(y);\n\
    \x20 }\n\
    \n\
    \x20 lineTo(x, y) {\n\
    \x20   this.path += (this.path === \"\" ? \"M\" : \"L\") + rounded(x) + \" \" + rounded(y);\n\
    \x20 }\n\
    \n\
    \x20 rect(x, y, width, height) {\n\
    \x20   this.path += \"M\" + [x, y].map(rounded).join(\" \") + \"h\" + rounded(width) + \"v\" + rounded(height\
    ) + \"h\" +\n\
    \x20     rounded(-width) + \"z\";\n\
    \x20 }\n\
    \n\
    \x20 // A whole circle: the drawing has no other arcs.\n\
    \x20 arc(x, y, radius) {\n\
    \x20   const around = \"a\" + rounded(radius) + \" \" + rounded(radius) + \" 0 1 0 \";\n\
    \x20   this.path += \"M\" + rounded(x - radius) + \" \" + rounded(y) + around + rounded(2 * radius) + \" 0\" \
    + around +\n\
    \x20     rounded(-2 * radius) + \" 0\";\n\
    \x20 }\n\
    \n\
    \x20 alpha() {\n\
    \x20   return this.globalAlpha === 1 ? \"\" : ` opacity=\"${rounded(this.globalAlpha)}\"`;\n\
    \x20 }\n\
    \n\
    \x20 pen() {\n\
    \x20   return paintOf(\"stroke\", this.strokeStyle) + ` stroke-width=\"${rounded(this.lineWidth)}\"` +\n\
    \x20     (this.lineJoin === \"round\" ? ` stroke-linejoin=\"round\"` : \"\") +\n\
    \x20     (this.dash.length === 0 ? \"\" : ` stroke-dasharray=\"${this.dash.map(rounded).join(\" \")}\"`) + th\
    is.alpha();\n\
    \x20 }\n\
    \n\
    \x20 fill() {\n\
    \x20   if (this.path !== \"\") this.add(`<path d=\"${this.path}\"${paintOf(\"fill\", this.fillStyle)}${this.a\
    lpha()}/>`);\n\
    \x20 }\n\
    \n\
    \x20 stroke() {\n\
    \x20   if (this.path !== \"\") this.add(`<path d=\"${this.path}\" fill=\"none\"${this.pen()}/>`);\n\
    \x20 }\n\
    \n\
    \x20 fillRect(x, y, width, height) {\n\
    \x20   const [left, top, wide, high] = [x, y, width, height].map(rounded);\n\
    \x20   this.add(`<rect x=\"${left}\" y=\"${top}\" width=\"${wide}\" height=\"${high}\"${paintOf(\"fill\", thi\
    s.fillStyle)}` +\n\
    \x20     `${this.alpha()}/>`);\n\
    \x20 }\n\
    \n\
    \x20 setLineDash(dash) {\n\
    \x20   this.dash = dash;\n\
    \x20 }\n\
    \n\
    \x20 dots(list, radius, fill, stroke, lineWidth) {\n\
    \x20   this.add(`<g${paintOf(\"fill\", fill)}${paintOf(\"stroke\", stroke)} stroke-width=\"${rounded(lineWidt\
    h)}\">`);\n\
    \x20   for (const [x, y] of list) this.add(`<circle cx=\"${rounded(x)}\" cy=\"${rounded(y)}\" r=\"${rounded(r\
    adius)}\"/>`);\n\
    \x20   this.add(\"</g>\");\n\
    \x20 }\n\
    \n\
    \x20 measureText(text) {\n\
    \x20   this.measure.font = this.font;\n\
    \x20   return this.measure.measureText(text);\n\
    \x20 }\n\
    \n\
    \x20 text(text, x, y, look) {\n\
    \x20   const [, bold, points, family] = /^(bold )?([\\d.]+)px (.*)$/.exec(this.font);\n\
    \x20   const below = y + BASELINES[this.textBaseline] * Number(points);\n\
    \x20   const weight = bold === undefined ? \"\" : ` font-weight=\"bold\"`;\n\
    \x20   this.add(`<text x=\"${rounded(x)}\" y=\"${rounded(below)}\" text-anchor=\"${ANCHORS[this.textAlign]}\"\
    \x20` +\n\
    \x20     `font-family=\"${escaped(family)}\" font-size=\"${points}\"${weight}${look}>${escaped(text)}</text>`\
    );\n\
    \x20 }\n\
    \n\
    \x20 fillText(text, x, y) {\n\
    \x20   this.text(text, x, y, paintOf(\"fill\", this.fillStyle));\n\
    \x20 }\n\
    \n\
    \x20 strokeText(text, x, y) {\n\
    \x20   this.text(text, x, y, ` fill=\"none\"${this.pen()}`);\n\
    \x20 }\n\
    \n\
    \x20 // The hatching of what comes after an event: the only pattern there is.\n\
    \x20 createPattern() {\n\
    \x20   this.add(`<pattern id=\"hatch\" width=\"8\" height=\"8\" patternUnits=\"userSpaceOnUse\"><rect width=\"\
    8\" height=\"8\"` +\n\
    \x20     `${paintOf(\"fill\", this.palette.future)}/><path d=\"M-9 9L1 -1M-1 9L9 -1M7 9L17 -1\" ` +\n\
    \x20     `stroke-width=\"1.2\"${paintOf(\"stroke\", this.palette[\"future-line\"])}/></pattern>`);\n\
    \x20   return \"url(#hatch)\";\n\
    \x20 }\n\
    \n\
    \x20 toFile(width, height, title) {\n\
    \x20   const [wide, high] = [rounded(width), rounded(height)];\n\
    \x20   return `<svg xmlns=\"${SVG}\" width=\"${wide}\" height=\"${high}\" viewBox=\"0 0 ${wide} ${high}\" rol\
    e=\"img\">` +\n\
    \x20     `<title>${escaped(title)}</title>\\n${this.parts.join(\"\\n\")}\\n${END}`;\n\
    \x20 }\n\
    }\n\
    \n\
    function nameFont(palette, isFolded) {\n\
    \x20 return (isFolded ? \"11px \" : \"bold 13px \") + palette.font;\n\
    }\n\
    \n\
    // How wide the names of the lanes are beside the drawing.\n\
    function widthOfNames(context, run, palette) {\n\
    \x20 context.font = nameFont(palette, false);\n\
    \x20 return Math.ceil(Math.min(NAMES_WIDTH, Math.max(...run.names.map((name) => context.measureText(name).wid\
    th)))) + 24;\n\
    }\n\
    \n\
    // Draws the names, and beside them what is shown.\n\
    function drawShown(context, run, state, palette, size, lanes, wide) {\n\
    \x20 context.fillStyle = palette.surface;\n\
    \x20 context.fillRect(0, 0, wide, size.height);\n\
    \x20 for (const p of size.order) {\n\
    \x20   const hasCount = !size.folded[p];\n\
    \x20   context.textAlign = \"right\";\n\
    \x20   context.textBaseline = \"middle\";\n\
    \x20   context.font = nameFont(palette, size.folded[p]);\n\
    \x20   context.fillStyle = palette.ink;\n\
    \x20   context.fillText(fitting(context, run.names[p], wide - 24), wide - 12, laneY(size, p) - (hasCount ? 7 \
    : 0));\n\
    \x20   context.font = \"12px \" + palette.font;\n\
    \x20   context.fillStyle = palette.muted;\n\
    \x20   if (hasCount) context.fillText(lanes[p].count.textContent, wide - 12, laneY(size, p) + 9);\n\
    \x20 }\n\
    \x20 context.save();\n\
    \x20 context.translate(wide, 0);\n\
    \x20 context.beginPath();\n\
    \x20 context.rect(0, 0, size.width, size.height);\n\
    \x20 context.clip();\n\
    \x20 drawDiagram(context, run, state, palette, size);\n\
    \x20 context.restore();\n\
    }\n\
    \n\
    // The address of the file is given back once it is saved.\n\
    function saveFile(blob, name) {\n\
    \x20 const link = element(\"a\", { href: URL.createObjectURL(blob), download: name });\n\
    \x20 link.click();\n\
    \x20 setTimeout(() => URL.revokeObjectURL(link.href), 1000);\n\
    }\n\
    \n\
    function savePicture(run, state, palette, size, lanes, say) {\n\
    \x20 const picture = document.createElement(\"canvas\");\n\
    \x20 const context = picture.getContext(\"2d\", { alpha: false });\n\
    \x20 const wide = widthOfNames(context, run, palette);\n\
    \x20 picture.width = Math.round((wide + size.width) * size.ratio);\n\
    \x20 picture.height = Math.round(size.height * size.ratio);\n\
    \x20 context.scale(size.ratio, size.ratio);\n\
    \x20 drawShown(context, run, state, palette, size, lanes, wide);\n\
    \x20 picture.toBlob((blob) => {\n\
    \x20   saveFile(blob, \"run.png\");\n\
    \x20   say(\"The picture is saved as run.png.\");\n\
    \x20 });\n\
    }\n\
    \n\
    // What is shown as the text of an SVG file, complete in itself.\n\
    function drawingText(run, state, palette, size, lanes) {\n\
    \x20 const context = new SvgContext(palette);\n\
    \x20 const wide = widthOfNames(context, run, palette);\n\
    \x20 drawShown(context, run, state, palette, size, lanes, wide);\n\
    \x20 return context.toFile(wide + size.width, size.height, document.title);\n\
    }\n\
    \n\
    function saveDrawing(run, state, palette, size, lanes, say) {\n\
    \x20 saveFile(new Blob([drawingText(run, state, palette, size, lanes)], { type: \"image/svg+xml\" }), \"run.s\
    vg\");\n\
    \x20 say(\"The drawing is saved as run.svg.\");\n\
    }\n\
    \n\
    if (typeof module === \"object\") module.exports = { escaped, paintOf };\n\
    </script>\n\
    ";
